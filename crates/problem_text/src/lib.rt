// The text of a problem: its form, and how it is read.
#![tactic(auto)]

pub mod field;
pub mod number;
pub mod read;
pub mod table;
pub mod transition;
