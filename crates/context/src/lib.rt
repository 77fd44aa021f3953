// What is read of one output: its planes, and a context, which has the OFF-set and the privileged cubes with their columns.
#![tactic(auto)]

pub mod context;
pub mod lowest;
pub mod planes;
pub mod unknown;
