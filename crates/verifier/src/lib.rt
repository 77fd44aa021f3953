// The verifier: whether a network is hazard-free for a table and its transitions, and the first fault if it is not.
#![tactic(auto)]

pub mod claim;
pub mod judge;
pub mod verify;
