ghost use Rattle.std.specs.Prelude.{◌≡◌};
ghost use Rattle.task.specs.Files.{move_count};
ghost use Rattle.task.specs.Answers.{held, Steps};

use crate::accepted::Accepted;
use crate::counted::Counted;
use crate::tables::Step;

impl<'a> Accepted<'a> {
    // The same, of which it is known that the counts are allowed.
    fn counted(&self) -> Counted<'a>
        ensures { result.task ≡ self.now.task }
    {
        Counted { task: self.task }
    }

    // The number of moves.
    pub fn count(&self) -> usize
        ensures { result ≡ move_count (held self.now.task) }
    {
        self.counted().count()
    }

    // Move k, or nothing if there is no such move.
    pub fn step(&self, k: usize) -> Option<Step<'a>>
        ensures { Steps (held self.now.task) k result }
    {
        let counted = self.counted();
        if k < counted.count() {
            Some(counted.step(k))
        } else {
            None
        }
    }
}
