#![tactic(auto)]

pub mod heaps;
