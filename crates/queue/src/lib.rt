#![tactic(auto)]

pub mod batches;
pub mod entries;
pub mod places;
pub mod queues;
pub mod scanned_row;
pub mod waiting;
