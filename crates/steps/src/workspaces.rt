ghost use Rattle.std.specs.Prelude.{◌≡◌, ◌*◌, ◌<◌, ◌≤◌, length};
ghost use Rattle.task.specs.Answers.{held};
ghost use Rattle.task.specs.Files.{task_of};
ghost use Rattle.steps.specs.Memories.{width};

use crate::numbers::Progress;
use crate::tables::Record;
use rows::checks::MOST_VARIABLES;
use task::accepted::Accepted;

// A row to work in: as many of its first bytes as the task has variables. It is handed beside the workspace: as a field of it
// (tried) what the other lent memory holds is lost to the check while the row is written.
pub(crate) type Scratch = [u8; MOST_VARIABLES];

// What a step works with: the task, the parts of the tables, which have space for as many nodes as the capacity says, the node
// that is taken, and how far the job has come. Each reference has a lifetime of its own, since the check follows only such ones.
#[derive(Drop)]
pub struct Workspace<'f, 'r, 'c, 's, 'q, K, S, Q> {
    pub(crate) accepted: Accepted<'f>,
    pub(crate) rows: &'r mut [u8],
    pub(crate) records: &'c mut [Record<K>],
    pub(crate) store: &'s mut S,
    pub(crate) queue: &'q mut Q,
    pub(crate) node: u16,
    pub(crate) progress: Progress,
    ghost stored: { node < progress.stored },
    ghost bytes: { progress.capacity * width (task_of (held accepted.task)) ≤ length rows.now },
    ghost noted: { progress.capacity ≤ length records.now },
    ghost short: { width (task_of (held accepted.task)) ≤ 64 },
}
