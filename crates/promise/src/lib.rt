#![tactic(auto)]

pub mod promises;
