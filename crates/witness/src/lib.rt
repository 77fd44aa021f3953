// The run that shows a fault: which it is, and its wires written.
#![tactic(auto)]

pub mod finding;
pub mod phase;
pub mod pulse;
pub mod run;
pub mod write;
