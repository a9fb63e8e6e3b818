#![tactic(auto)]

pub mod capacity;
pub mod keeping;
pub mod row_store;
pub mod stores;
