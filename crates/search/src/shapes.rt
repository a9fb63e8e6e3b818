ghost use Rattle.std.specs.Prelude.{◌≡◌, MatchBool};
ghost use Rattle.task.specs.Answers.{held};
ghost use Rattle.task.specs.Files.{width, move_count};
ghost use Rattle.search.specs.Files.{Shaped};

use crate::jobs::Shape;
use task::accepted::Accepted;

impl Shape {
    // The shape of an accepted file.
    pub(crate) fn of(accepted: &Accepted<'_>) -> Shape
        ensures variables { result.variables ≡ width (held accepted.now.task) }
        ensures moves { result.moves ≡ move_count (held accepted.now.task) }
    {
        Shape {
            variables: accepted.task.values.len(),
            moves: accepted.count(),
        }
    }

    // Whether an accepted file has this shape.
    pub(crate) fn is_of(&self, accepted: &Accepted<'_>) -> bool
        ensures { MatchBool result (Shaped self.now (held accepted.now.task)) (Shaped self.now (held accepted.now.task) → ⊥) }
    {
        accepted.task.values.len() == self.variables && accepted.count() == self.moves
    }
}
