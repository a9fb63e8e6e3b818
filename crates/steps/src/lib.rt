#![tactic(auto)]

ghost use Rattle.std.specs.Prelude.{◌≡◌, ◌+◌, ◌*◌, ◌≤◌, length, Some, None, MatchOption};
ghost use Rattle.task.specs.Answers.{held};
ghost use Rattle.task.specs.Files.{task_of};
ghost use Rattle.planning.specs.Plans.{price};
ghost use Rattle.steps.specs.Memories.{width, row_at, written};
ghost use Rattle.steps.specs.Steps.{back};

pub mod begins;
pub mod numbers;
mod outcomes;
pub mod tables;
pub mod turns;
mod visits;
mod workspaces;

use task::accepted::Accepted;

// Row n, at v bytes a row.
fn row_at(bytes: &[u8], n: u16, v: usize) -> &[u8]
    requires within { (n + 1) * v ≤ length bytes.now }
    requires short { v ≤ 64 }
    ensures { result.now ≡ row_at v bytes.now n }
{
    let from = usize::from(n) * v;
    &bytes[from..from + v]
}

// Writes a row as row n.
fn write_row(bytes: &mut [u8], n: u16, row: &[u8])
    requires within { (n + 1) * length row.now ≤ length bytes.old }
    requires short { length row.now ≤ 64 }
    ensures { bytes.new ≡ written bytes.old (n * length row.now) row.now }
{
    let from = usize::from(n) * row.len();
    bytes[from..from + row.len()].copy_from_slice(row);
}

// The number of moves, which is at most 4,096: so it is converted by as, since u16::try_from would bring an error that cannot be.
fn move_count(accepted: &Accepted<'_>) -> u16
    ensures { result ≡ length (task_of (held accepted.now.task)).moves }
{
    accepted.count() as u16
}

// The price of move m if the row is regressed over it; the result is then in the buffer.
fn regress(accepted: &Accepted<'_>, m: u16, row: &[u8], out: &mut [u8]) -> Option<u32>
    requires row { length row.now ≡ width (task_of (held accepted.now.task)) }
    requires out { length out.old ≡ width (task_of (held accepted.now.task)) }
    ensures { MatchOption result (back (task_of (held accepted.now.task)) m row.now ≡ None) (λ p. (back (task_of (held accepted.now.task)) m row.now ≡ Some out.new) × (p ≡ price (task_of (held accepted.now.task)) m)) }
{
    let step = accepted.step(usize::from(m))?;
    if step.operator.regress_row(row, out) {
        Some(step.price)
    } else {
        None
    }
}
