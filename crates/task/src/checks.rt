ghost use Rattle.std.specs.Prelude.{◌≡◌, ◌<◌, ◌&&◌, length, nat_le};
ghost use Rattle.rows.specs.Rows.{all};
ghost use Rattle.task.specs.Files.{width, move_count, counts, positions, prices, names, named, printable, rows_fit, move_at, each};
ghost use Rattle.task.specs.Answers.{held, Checks, move_of};

use crate::counted::Counted;
use crate::faults::Fault;
use crate::first_name;
use crate::tables::{Step, Task};
use rows::checks::{MOST_VARIABLES, fits, has_values, is_complete};
use rows::operators::HIGHEST_PRICE;

const MOST_MOVES: usize = 4096;

const LONGEST_NAME: usize = 40;

impl Task<'_> {
    // The first ground on which the bodies are refused, each looked for in all of them before the next.
    pub fn check(&self) -> Result<(), Fault>
        ensures { Checks (held self.now) result }
    {
        if !self.has_counts() {
            return Err(Fault::Count);
        }
        let counted = Counted { task: *self };
        if !counted.has_positions() {
            return Err(Fault::Position);
        }
        if !counted.has_prices() {
            return Err(Fault::Price);
        }
        if !counted.has_names() {
            return Err(Fault::Name);
        }
        Ok(())
    }

    // Whether V, M and the lengths of start, goal and moves fit.
    fn has_counts(&self) -> bool
        ensures { result ≡ counts (held self.now) }
    {
        let width = self.values.len();
        if width == 0 || width > MOST_VARIABLES {
            return false;
        }
        let size = 4 + 2 * width;
        self.start.len() == width
            && self.goal.len() == width
            && self.moves.len() % size == 0
            && self.moves.len() / size <= MOST_MOVES
    }
}

// Moves are gone through by number, as they are read everywhere; a chunk of their bytes would have to be taken apart a second way.
impl Counted<'_> {
    // Whether each variable has a value, and each byte is allowed in its row.
    fn has_positions(&self) -> bool
        ensures { result ≡ positions (held self.now.task) }
    {
        has_values(self.task.values)
            && is_complete(self.task.values, self.task.start)
            && fits(self.task.values, self.task.goal)
            && self.has_rows()
    }

    // Whether the conditions and effects of all moves fit the values table.
    fn has_rows(&self) -> bool
        ensures { result ≡ each (λ k. rows_fit self.now.task.values.now (move_at (width (held self.now.task)) self.now.task.moves.now k)) (move_count (held self.now.task)) }
    {
        (0..self.count()).all(
            |k|
                requires { k < move_count (held self.now.task) }
            { rows_fit(self.task.values, &self.step(k)) },
        )
    }

    // Whether no price is over the limit.
    fn has_prices(&self) -> bool
        ensures { result ≡ prices (held self.now.task) }
    {
        (0..self.count()).all(
            |k|
                requires { k < move_count (held self.now.task) }
            { self.step(k).price <= HIGHEST_PRICE },
        )
    }

    // Whether there is exactly one lawful name for each move.
    fn has_names(&self) -> bool
        ensures { result ≡ names (held self.now.task) }
    {
        are_names(self.count(), self.task.names)
    }
}

// Whether condition and effect of a move fit the values table.
fn rows_fit(values: &[u8], step: &Step<'_>) -> bool
    ensures { result ≡ rows_fit values.now (move_of step.now) }
{
    fits(values, step.operator.condition) && fits(values, step.operator.effect)
}

// Whether a name may have these bytes.
fn is_printable(text: &[u8]) -> bool
    ensures { result ≡ all printable text.now }
{
    text.iter().all(u8::is_ascii_graphic)
}

// Whether a move may have this name.
fn is_lawful(name: &[u8]) -> bool
    ensures { result ≡ ((nat_le 1 (length name.now) && nat_le (length name.now) 40) && all printable name.now) }
{
    !name.is_empty() && name.len() <= LONGEST_NAME && is_printable(name)
}

// Whether the bytes are that many lawful names and nothing else.
fn are_names(count: usize, names: &[u8]) -> bool
    ensures { result ≡ named count names.now }
{
    let mut rest = names;
    for _k in 0..count {
        let Some((name, after)) = first_name(rest) else {
            return false;
        };
        if !is_lawful(name) {
            return false;
        }
        rest = after;
    }
    rest.is_empty()
}
