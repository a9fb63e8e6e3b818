// Calls on rows that are known to fit, so that nothing is checked twice.
ghost use Rattle.std.specs.Prelude.{◌≡◌};
ghost use Rattle.rows.specs.Rows.{covers, covers_at};

use crate::checks::MARK;

// Whether a byte a of a row covers a byte b: it is the mark or the same.
fn covers_byte(a: u8, b: u8) -> bool
    ensures { result ≡ covers_at a b }
{
    a == MARK || a == b
}

// Whether s covers t; a row agrees with a state exactly if it covers it. It leaves at the first variable that rules it out.
pub fn row_covers(s: &[u8], t: &[u8]) -> bool
    ensures { result ≡ covers s.now t.now }
{
    s.len() == t.len() && s.iter().zip(t).all(|(a, b)| covers_byte(*a, *b))
}
