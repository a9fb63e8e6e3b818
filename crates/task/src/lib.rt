#![tactic(auto)]

ghost use Rattle.std.specs.Prelude.{◌≡◌, ◌+◌, ◌<◌, ◌≤◌, length};
ghost use Rattle.task.specs.Files.{word, width, move_count, move_at};
ghost use Rattle.task.specs.Answers.{held, move_of, FirstName};

pub mod accepted;
mod addressable;
mod checks;
mod contents;
mod counted;
pub mod faults;
mod moves;
mod names;
mod reader;
mod sample;
pub mod tables;
mod writer;

use counted::Counted;
pub use names::name;
pub use reader::read;
use rows::operators::Operator;
pub use sample::write_sample;
use tables::Step;
pub use writer::write;

// The bytes of the longest task file that the device and the programs take; the reader itself has no limit.
pub const LONGEST_FILE: usize = 32_768;

// The 32-bit number at a place, low byte first.
fn word(bytes: &[u8], at: usize) -> u32
    requires { at + 4 ≤ length bytes.now }
    ensures { result ≡ word bytes.now at }
{
    u32::from_le_bytes([bytes[at], bytes[at + 1], bytes[at + 2], bytes[at + 3]])
}

// The first of some names, and what follows it; nothing where no whole name begins.
fn first_name(names: &[u8]) -> Option<(&[u8], &[u8])>
    ensures { FirstName names.now result }
{
    let (length, rest) = names.split_first()?;
    let length = usize::from(*length);
    if length > rest.len() {
        return None;
    }
    Some(rest.split_at(length))
}

impl<'a> Counted<'a> {
    // The number of moves.
    fn count(&self) -> usize
        ensures { result ≡ move_count (held self.now.task) }
    {
        self.task.moves.len() / (4 + 2 * self.task.values.len())
    }

    // Move k.
    fn step(&self, k: usize) -> Step<'a>
        requires { k < move_count (held self.now.task) }
        ensures { move_of result ≡ move_at (width (held self.now.task)) self.now.task.moves.now k }
    {
        let moves = self.task.moves;
        let width = self.task.values.len();
        let at = k * (4 + 2 * width);
        Step {
            price: word(moves, at),
            operator: Operator {
                condition: &moves[at + 4..at + 4 + width],
                effect: &moves[at + 4 + width..at + 4 + 2 * width],
            },
        }
    }
}
