// Transitions: their ends and their kinds, lists of them, and a problem as the checks up to 6 leave it.
#![tactic(auto)]

pub mod each;
pub mod kind;
pub mod problem;
pub mod transition;
pub mod transitions;
