ghost use Rattle.std.specs.Prelude.{◌≡◌, true};
ghost use Rattle.task.specs.Files.{counts, positions, prices, names};
ghost use Rattle.task.specs.Answers.{held};

use crate::tables::Task;

// The bodies of a task that the reader does not refuse. Its ghost fields are what the reader looked for, so that nothing is
// checked twice.
#[derive(Clone, Copy)]
pub struct Accepted<'a> {
    pub task: Task<'a>,
    ghost counted: { counts (held task) ≡ true },
    ghost positioned: { positions (held task) ≡ true },
    ghost priced: { prices (held task) ≡ true },
    ghost named: { names (held task) ≡ true },
}
