#![tactic(auto)]

ghost use Rattle.std.specs.Prelude.{◌≡◌, ◌++◌, IfOk, string_bytes, codes};
ghost use Rattle.description.specs.Texts.{value, setting, settings, rows_text, variable_line, move_text, refused_line};

mod lines;
mod moves;

pub use lines::{LONGEST, describe};
use rows::checks::MARK;
use std::alloc::{AllocError, Global};
use task::faults::Fault;

// A byte of a row: its value, or that it is undefined.
fn value_text(heap: Global, b: u8) -> Result<String, AllocError>
    ensures { IfOk result (λ t. string_bytes t ≡ value b) }
{
    if b == MARK {
        String::from_str(heap, "undefined")
    } else {
        format!(in heap; "{b}")
    }
}

// What a row fixes at a variable, if anything.
fn setting_text(heap: Global, v: usize, b: u8) -> Result<String, AllocError>
    ensures { IfOk result (λ t. string_bytes t ≡ setting v b) }
{
    if b == MARK {
        Ok(String::new(heap))
    } else {
        format!(in heap; " {v}={b}")
    }
}

// What a row fixes.
fn settings_text(heap: Global, row: &[u8]) -> Result<String, AllocError>
    ensures { IfOk result (λ t. string_bytes t ≡ settings 0 row.now) }
{
    let mut text = String::new(heap);
    for (v, b) in row.iter().enumerate() {
        let one = setting_text(heap, v, *b)?;
        text.push_str(one.as_str())?;
    }
    Ok(text)
}

// The line of variable v.
fn variable_line(
    heap: Global,
    v: usize,
    count: u8,
    start: u8,
    goal: u8,
) -> Result<String, AllocError>
    ensures { IfOk result (λ t. string_bytes t ≡ variable_line v count start goal) }
{
    let goal_text = value_text(heap, goal)?;
    format!(in heap; "variable {v}: values {count}, start {start}, goal {goal_text}\n")
}

// The line of a refused file.
fn refused_line(heap: Global, fault: Fault) -> Result<String, AllocError>
    ensures { IfOk result (λ t. string_bytes t ≡ refused_line fault) }
{
    let number = fault.refusal().number();
    format!(in heap; "refused {number} {fault}\n")
}

fn regressed_text(heap: Global, settings: &str) -> Result<String, AllocError>
    ensures { IfOk result (λ t. string_bytes t ≡ codes "regressed:" ++ settings.now) }
{
    format!(in heap; "regressed:{settings}")
}

fn rows_text(heap: Global, needs: &str, sets: &str, before: &str) -> Result<String, AllocError>
    ensures { IfOk result (λ t. string_bytes t ≡ rows_text needs.now sets.now before.now) }
{
    format!(in heap; "needs{needs}, sets{sets}, goal {before}")
}

fn move_text(
    heap: Global,
    k: usize,
    name: &str,
    price: u32,
    rows: &str,
) -> Result<String, AllocError>
    ensures { IfOk result (λ t. string_bytes t ≡ move_text k name.now price rows.now) }
{
    format!(in heap; "move {k} {name}: price {price}, {rows}\n")
}
