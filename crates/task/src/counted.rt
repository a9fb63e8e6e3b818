ghost use Rattle.std.specs.Prelude.{◌≡◌, true};
ghost use Rattle.task.specs.Files.{counts};
ghost use Rattle.task.specs.Answers.{held};

use crate::tables::Task;

// The bodies of a task with allowed counts: its moves are whole records.
#[derive(Clone, Copy)]
pub(crate) struct Counted<'a> {
    pub(crate) task: Task<'a>,
    ghost counted: { counts (held task) ≡ true },
}
