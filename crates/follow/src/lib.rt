#![tactic(auto)]

pub mod jobs;
pub mod tables;
