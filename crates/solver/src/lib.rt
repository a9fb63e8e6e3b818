#![tactic(auto)]

pub mod solutions;
pub mod solves;
