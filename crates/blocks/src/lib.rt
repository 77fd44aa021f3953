// The columns of rows, in blocks of 64.
#![tactic(auto)]

pub mod fill;
pub mod word;
