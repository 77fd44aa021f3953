// Checks 6 and 7: what the table has at the points of the transition cubes.
#![tactic(auto)]

pub mod defined;
pub mod function_hazard;
pub mod run;
