ghost use Rattle.std.specs.Prelude.{◌≡◌, ◌≤◌, ◌&&◌, not, length};
ghost use Rattle.rows.specs.Calls.{Outcome, applying, regressing, Placing, placing, even, over};
ghost use Rattle.rows.specs.Rows.{led, pulled, overlaid, overlaid_at, hits, hits_at, clear, clashes, backed, backed_at};

use crate::checks::{MARK, fits, is_complete};
use crate::inner::row_covers;
use crate::refusals::Refusal;

// The highest price of a move.
pub const HIGHEST_PRICE: u32 = 1_000_000_000;

// What a move asks of a state and what it sets: its condition and its effect.
#[derive(Clone, Copy)]
pub struct Operator<'a> {
    pub condition: &'a [u8],
    pub effect: &'a [u8],
}

// Calls on any bytes: each takes a values table and refuses Misfit before anything else.
impl Operator<'_> {
    // Whether the move applies in a state; if so, the state after it is written into the first bytes of the buffer.
    pub fn apply(&self, values: &[u8], state: &[u8], out: &mut [u8]) -> Result<bool, Refusal>
        ensures { record { answer = result; buffer = out.new } ≡ applying values.now self.now.condition.now self.now.effect.now state.now out.old }
    {
        if !fits(values, self.condition)
            || !fits(values, self.effect)
            || !is_complete(values, state)
        {
            return Err(Refusal::Misfit);
        }
        if !row_covers(self.condition, state) {
            return Ok(false);
        }
        if out.len() < state.len() {
            return Err(Refusal::ShortBuffer);
        }
        self.write_overlaid(state, out);
        Ok(true)
    }

    // Whether a row is regressed over the move; if so, the result is written into the first bytes of the buffer.
    pub fn regress(&self, values: &[u8], row: &[u8], out: &mut [u8]) -> Result<bool, Refusal>
        ensures { record { answer = result; buffer = out.new } ≡ regressing values.now self.now.condition.now self.now.effect.now row.now out.old }
    {
        if !fits(values, self.condition) || !fits(values, self.effect) || !fits(values, row) {
            return Err(Refusal::Misfit);
        }
        if !self.is_regressed(row) {
            return Ok(false);
        }
        if out.len() < row.len() {
            return Err(Refusal::ShortBuffer);
        }
        self.write_backed(row, out);
        Ok(true)
    }
}

// Calls on rows that are known to fit, so that nothing is checked twice.
impl Operator<'_> {
    // Whether the move applies in a state, and the state after it in a buffer of the state's length.
    pub fn apply_row(&self, state: &[u8], out: &mut [u8]) -> bool
        ensures { record { answer = result; buffer = out.new } ≡ placing (even self.now.condition.now self.now.effect.now state.now out.old) (led self.now.condition.now self.now.effect.now state.now) out.old }
    {
        if !self.is_even(state, out) || !row_covers(self.condition, state) {
            return false;
        }
        self.write_overlaid(state, out);
        true
    }

    // Whether a row is regressed over the move, and the result in a buffer of the row's length.
    pub fn regress_row(&self, row: &[u8], out: &mut [u8]) -> bool
        ensures { record { answer = result; buffer = out.new } ≡ placing (even self.now.condition.now self.now.effect.now row.now out.old) (pulled self.now.condition.now self.now.effect.now row.now) out.old }
    {
        if !self.is_even(row, out) || !self.is_regressed(row) {
            return false;
        }
        self.write_backed(row, out);
        true
    }

    // Whether condition, effect and a buffer are as long as a row.
    fn is_even(&self, row: &[u8], out: &[u8]) -> bool
        ensures { result ≡ even self.now.condition.now self.now.effect.now row.now out.now }
    {
        self.condition.len() == row.len()
            && self.effect.len() == row.len()
            && out.len() == row.len()
    }

    // Whether a row is regressed over the move. It leaves at the first variable that rules it out.
    fn is_regressed(&self, row: &[u8]) -> bool
        requires { length row.now ≤ length self.now.condition.now }
        ensures { result ≡ (hits row.now self.now.effect.now && clear row.now self.now.condition.now self.now.effect.now) }
    {
        let mut hit = false;
        // one pass: a chain for each of the two tests was slower
        for ((b, y), x) in row.iter().zip(self.condition).zip(self.effect) {
            if !is_clear(*b, *y, *x) {
                return false;
            }
            hit |= strikes(*b, *x);
        }
        hit
    }

    // Writes the row before the move into the first bytes of a buffer.
    fn write_backed(&self, row: &[u8], out: &mut [u8])
        requires { length row.now ≤ length out.old }
        ensures { out.new ≡ over (backed row.now self.now.condition.now self.now.effect.now) out.old }
    {
        let places = row.iter().zip(self.condition).zip(self.effect);
        for (v, ((b, y), x)) in places.enumerate() {
            out[v] = backed_byte(*b, *y, *x);
        }
    }

    // Writes the state after the move into the first bytes of a buffer.
    fn write_overlaid(&self, state: &[u8], out: &mut [u8])
        requires effect { length self.now.effect.now ≡ length state.now }
        requires room { length state.now ≤ length out.old }
        ensures { out.new ≡ over (overlaid self.now.effect.now state.now) out.old }
    {
        for (v, (x, b)) in self.effect.iter().zip(state).enumerate() {
            out[v] = overlaid_byte(*x, *b);
        }
    }
}

// The byte of a state after a move whose effect has byte e there.
fn overlaid_byte(e: u8, b: u8) -> u8
    ensures { result ≡ overlaid_at e b }
{
    if e != MARK { e } else { b }
}

// The byte of a row before a move, where the row has b, the condition y and the effect x.
fn backed_byte(b: u8, y: u8, x: u8) -> u8
    ensures { result ≡ backed_at b y x }
{
    if y != MARK {
        y
    } else if x != MARK {
        MARK
    } else {
        b
    }
}

// Whether a row can be regressed for its byte b, where the condition has y and the effect x.
fn is_clear(b: u8, y: u8, x: u8) -> bool
    ensures { result ≡ not (clashes b y x) }
{
    let new = if x != MARK { x } else { y };
    new == MARK || b == MARK || new == b
}

// Whether an effect with byte x fixes the value that a row with byte b fixes.
fn strikes(b: u8, x: u8) -> bool
    ensures { result ≡ hits_at b x }
{
    x != MARK && x == b
}
