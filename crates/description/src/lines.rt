ghost use Rattle.std.specs.Prelude.{◌≡◌, ◌<◌, IfOk, string_bytes};
ghost use Rattle.task.specs.Files.{move_count};
ghost use Rattle.task.specs.Answers.{held};
ghost use Rattle.description.specs.Texts.{variable_lines, step_line, step_lines, task_text, described};

use crate::moves::Move;
use crate::{refused_line, variable_line};
use std::alloc::{AllocError, Global};
use task::accepted::Accepted;
use task::tables::Task;
use task::{LONGEST_FILE, read};

// The bytes of the longest input that is read.
pub const LONGEST: usize = LONGEST_FILE;

// The lines of all variables.
fn variables_text(heap: Global, task: &Task<'_>) -> Result<String, AllocError>
    ensures { IfOk result (λ t. string_bytes t ≡ variable_lines 0 task.now.values.now task.now.start.now task.now.goal.now) }
{
    let mut text = String::new(heap);
    let places = task.values.iter().zip(task.start).zip(task.goal);
    for (v, ((count, start), goal)) in places.enumerate() {
        let line = variable_line(heap, v, *count, *start, *goal)?;
        text.push_str(line.as_str())?;
    }
    Ok(text)
}

// The line of a task's move k.
fn step_line(heap: Global, accepted: &Accepted<'_>, k: usize) -> Result<String, AllocError>
    requires { k < move_count (held accepted.now.task) }
    ensures { IfOk result (λ t. string_bytes t ≡ step_line (held accepted.now.task) k) }
{
    let Some(step) = accepted.step(k) else {
        return Ok(String::new(heap));
    };
    let Some((name, _)) = accepted.name(k) else {
        return Ok(String::new(heap));
    };
    let shown = Move {
        number: k,
        name,
        step,
        goal: accepted.task.goal,
    };
    shown.line(heap)
}

// The lines of all moves.
fn steps_text(heap: Global, accepted: &Accepted<'_>) -> Result<String, AllocError>
    ensures { IfOk result (λ t. string_bytes t ≡ step_lines (held accepted.now.task) 0 (move_count (held accepted.now.task))) }
{
    let mut text = String::new(heap);
    let count = accepted.count();
    for k in 0..count {
        let line = step_line(heap, accepted, k)?;
        text.push_str(line.as_str())?;
    }
    Ok(text)
}

// The lines of a task: its variables and then its moves.
fn task_text(heap: Global, accepted: &Accepted<'_>) -> Result<String, AllocError>
    ensures { IfOk result (λ t. string_bytes t ≡ task_text (held accepted.now.task)) }
{
    let mut text = variables_text(heap, &accepted.task)?;
    let steps = steps_text(heap, accepted)?;
    text.push_str(steps.as_str())?;
    Ok(text)
}

// What is shown of a task file: its variables and moves, why it is refused, or that it is too long to be read.
pub fn describe(heap: Global, input: &[u8]) -> Result<String, AllocError>
    ensures { IfOk result (λ t. string_bytes t ≡ described input.now) }
{
    if input.len() > LONGEST {
        return String::from_str(heap, "too long\n");
    }
    match read(input) {
        Ok(accepted) => task_text(heap, &accepted),
        Err(fault) => refused_line(heap, fault),
    }
}
