// The privileged cubes of a context, and the illegal intersections of a cube with them.
#![tactic(auto)]

pub mod make;
pub mod meeting;
