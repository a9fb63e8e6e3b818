ghost use Rattle.std.specs.Prelude.{◌<◌};
ghost use Rattle.task.specs.Answers.{held};
ghost use Rattle.task.specs.Layouts.{total};

use crate::tables::Task;

// The bodies of a task whose layout has places and lengths of 32 bits.
#[derive(Clone, Copy)]
pub(crate) struct Addressable<'a> {
    pub(crate) task: Task<'a>,
    ghost small: { total (held task) < 4294967296 },
}
