// Moves between sets of points, 64 points at a time.
#![tactic(auto)]

pub mod further;
pub mod turn;
