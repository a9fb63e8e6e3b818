ghost use Rattle.std.specs.Prelude.{◌≡◌, ◌≤◌, true, length, IfOk, string_bytes};
ghost use Rattle.rows.specs.Rows.{all, pulled};
ghost use Rattle.task.specs.Answers.{move_of};
ghost use Rattle.task.specs.Files.{printable};
ghost use Rattle.description.specs.Texts.{settings, goal_text, rows_text, move_line};

use crate::{move_text, regressed_text, rows_text, settings_text};
use rows::checks::MOST_VARIABLES;
use std::alloc::{AllocError, Global};
use task::tables::Step;

// A move as it is shown: its number, its name of printable bytes, its price and rows, and the goal, of as many bytes as these.
#[derive(Clone, Copy)]
pub(crate) struct Move<'a> {
    pub(crate) number: usize,
    pub(crate) name: &'a [u8],
    pub(crate) step: Step<'a>,
    pub(crate) goal: &'a [u8],
    ghost printable: { all printable name.now ≡ true },
    ghost condition: { length step.operator.condition.now ≡ length goal.now },
    ghost effect: { length step.operator.effect.now ≡ length goal.now },
    ghost few: { length goal.now ≤ 64 },
}

impl Move<'_> {
    // The goal before the move, if it is regressed over it, in a buffer of the goal's length.
    fn goal_text(&self, heap: Global, before: &mut [u8]) -> Result<String, AllocError>
        requires { length before.old ≡ length self.now.goal.now }
        ensures { IfOk result (λ t. string_bytes t ≡ goal_text (pulled self.now.step.operator.condition.now self.now.step.operator.effect.now self.now.goal.now)) }
    {
        if !self.step.operator.regress_row(self.goal, before) {
            return String::from_str(heap, "not regressed");
        }
        let text = settings_text(heap, before)?;
        regressed_text(heap, text.as_str())
    }

    // What the move needs and sets, and the goal before it.
    fn rows_text(&self, heap: Global) -> Result<String, AllocError>
        ensures { IfOk result (λ t. string_bytes t ≡ rows_text (settings 0 self.now.step.operator.condition.now) (settings 0 self.now.step.operator.effect.now) (goal_text (pulled self.now.step.operator.condition.now self.now.step.operator.effect.now self.now.goal.now))) }
    {
        let needs = settings_text(heap, self.step.operator.condition)?;
        let sets = settings_text(heap, self.step.operator.effect)?;
        let mut before = [0; MOST_VARIABLES];
        let goal = self.goal_text(heap, &mut before[..self.goal.len()])?;
        rows_text(heap, needs.as_str(), sets.as_str(), goal.as_str())
    }

    // The line of the move.
    pub(crate) fn line(&self, heap: Global) -> Result<String, AllocError>
        ensures { IfOk result (λ t. string_bytes t ≡ move_line self.now.number self.now.name.now (move_of self.now.step) self.now.goal.now) }
    {
        let name = String::from_utf8_lossy(heap, self.name)?;
        let rows = self.rows_text(heap)?;
        move_text(
            heap,
            self.number,
            name.as_str(),
            self.step.price,
            rows.as_str(),
        )
    }
}
