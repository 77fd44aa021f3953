// The form of a problem: checks 1 to 5 and 14, each a function of its own, and their runs.
#![tactic(auto)]

pub mod burst;
pub mod form;
pub mod inputs;
pub mod list;
pub mod table;
