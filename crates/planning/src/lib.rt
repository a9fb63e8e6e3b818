#![tactic(auto)]

pub mod beliefs;
pub mod spaces;
