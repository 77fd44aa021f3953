// Up to 64 packed cubes tested against one cube at once, by bit columns.
#![tactic(auto)]

pub mod column;
pub mod relation;
pub mod whole;
