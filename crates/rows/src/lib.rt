#![tactic(auto)]

pub mod calls;
pub mod checks;
pub mod inner;
pub mod operators;
pub mod refusals;
