#![tactic(auto)]

pub mod costs;
pub mod limits;
pub mod peak;
pub mod plans;
pub mod priced;
pub mod spend;
pub mod spend_then_moves;
