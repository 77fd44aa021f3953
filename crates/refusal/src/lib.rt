// Refusals, and the number and the fields that tell them.
#![tactic(auto)]

pub mod fields;
pub mod refusal;
