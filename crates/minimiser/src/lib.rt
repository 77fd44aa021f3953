// The minimiser: a hazard-free network for a table and its transitions, or why there is none.
#![tactic(auto)]

pub mod minimise;
pub mod network;
pub mod write;
