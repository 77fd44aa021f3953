// The text of the minimiser's answer, written.
#![tactic(auto)]

pub mod reply;
