#![tactic(auto)]

ghost use Rattle.std.specs.Prelude.{◌≡◌, ◌+◌, ◌<◌, ◌≤◌, ◌++◌, length, codes, MatchBool};
ghost use Rattle.task.specs.Answers.{held};
ghost use Rattle.device.specs.Texts.{newline, name_of, name_lines, plan_text, Placed, Puts};

mod answers;

pub use answers::{LONGEST, answer, longest_answer};
use rows::refusals::Refusal;
use task::accepted::Accepted;

// Writes a piece into a buffer at a place, and answers where it ends. The writer of task files has the same function for itself:
// shared it would be public, and no public function requires anything.
fn put(out: &mut [u8], at: usize, piece: &[u8]) -> usize
    requires { at + length piece.now ≤ length out.old }
    ensures { Placed at piece.now out.old result out.new }
{
    let end = at + piece.len();
    out[at..end].copy_from_slice(piece);
    end
}

// Writes a line at a place, and answers where it ends.
fn put_line(out: &mut [u8], at: usize, line: &[u8]) -> usize
    requires { at + (length line.now + 1) ≤ length out.old }
    ensures { Placed at (line.now ++ newline) out.old result out.new }
{
    let end = put(out, at, line);
    put(out, end, b"\n")
}

// Writes the line of an amount, and answers where it ends.
fn put_cost(out: &mut [u8], amount: &str) -> usize
    requires { length amount.now + 6 ≤ length out.old }
    ensures { Placed 0 (codes "cost " ++ (amount.now ++ newline)) out.old result out.new }
{
    let word = put(out, 0, b"cost ");
    put_line(out, word, amount.as_bytes())
}

// The name of a move; empty if there is no such move.
fn name_of<'a>(accepted: &Accepted<'a>, k: u16) -> &'a [u8]
    ensures { result.now ≡ name_of (held accepted.now.task) k }
{
    accepted.name(usize::from(k)).map_or(b"", |(name, _)| name)
}

// Whether the lines of these moves' names fit so many bytes.
fn names_fit(accepted: &Accepted<'_>, moves: &[u16], room: usize) -> bool
    ensures { MatchBool result (length (name_lines (held accepted.now.task) moves.now) ≤ room) (room < length (name_lines (held accepted.now.task) moves.now)) }
{
    let mut left = room;
    for k in moves {
        let size = name_of(accepted, *k).len();
        if left <= size {
            return false;
        }
        left -= size + 1;
    }
    true
}

// Writes the lines of these moves' names from a place on, and answers where they end.
fn put_names(out: &mut [u8], at: usize, accepted: &Accepted<'_>, moves: &[u16]) -> usize
    requires { at + length (name_lines (held accepted.now.task) moves.now) ≤ length out.old }
    ensures { Placed at (name_lines (held accepted.now.task) moves.now) out.old result out.new }
{
    let mut end = at;
    for k in moves {
        end = put_line(out, end, name_of(accepted, *k));
    }
    end
}

// Writes a plan's amount and the names of its moves, and answers how many bytes these are.
fn write_plan(
    accepted: &Accepted<'_>,
    amount: u64,
    moves: &[u16],
    out: &mut [u8],
) -> Result<usize, Refusal>
    ensures { Puts (plan_text (held accepted.now.task) amount moves.now) out.old result out.new }
{
    let mut digits = itoa::Buffer::new();
    let amount = digits.format(amount);
    let head = amount.len() + 6;
    if out.len() < head || !names_fit(accepted, moves, out.len() - head) {
        return Err(Refusal::ShortBuffer);
    }
    let end = put_cost(out, amount);
    Ok(put_names(out, end, accepted, moves))
}

// Writes a text, and answers how many bytes it is.
fn write_text(text: &[u8], out: &mut [u8]) -> Result<usize, Refusal>
    ensures { Puts text.now out.old result out.new }
{
    if out.len() < text.len() {
        return Err(Refusal::ShortBuffer);
    }
    Ok(put(out, 0, text))
}
