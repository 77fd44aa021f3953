// The input rules in their order, and the problem that they leave.
#![tactic(auto)]

pub mod check;
pub mod checked;
pub mod stored;
