// The sets made from the planes and transitions that the input rules let through.
#![tactic(auto)]

pub mod privileged;
pub mod required;
pub mod unvisited;
