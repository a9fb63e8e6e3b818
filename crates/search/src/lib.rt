#![tactic(auto)]

pub mod jobs;
pub mod opens;
mod plans;
mod reading;
mod shapes;
mod works;
