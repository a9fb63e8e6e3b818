// Calls on any bytes: each takes a values table and refuses Misfit before anything else.
ghost use Rattle.std.specs.Prelude.{◌≡◌};
ghost use Rattle.rows.specs.Calls.{agreeing, covering};

use crate::checks::{fits, is_complete};
use crate::inner::row_covers;
use crate::refusals::Refusal;

// Whether a row agrees with a state: the state has every value that the row fixes.
pub fn agrees(values: &[u8], row: &[u8], state: &[u8]) -> Result<bool, Refusal>
    ensures { result ≡ agreeing values.now row.now state.now }
{
    if !fits(values, row) || !is_complete(values, state) {
        return Err(Refusal::Misfit);
    }
    Ok(row_covers(row, state))
}

// Whether s covers t: at each variable, s has the mark or t's byte.
pub fn covers(values: &[u8], s: &[u8], t: &[u8]) -> Result<bool, Refusal>
    ensures { result ≡ covering values.now s.now t.now }
{
    if !fits(values, s) || !fits(values, t) {
        return Err(Refusal::Misfit);
    }
    Ok(row_covers(s, t))
}
