#![tactic(auto)]

pub mod promises;
pub mod samples;
pub mod settings;
