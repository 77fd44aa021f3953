// Sets of points, 64 at a time: point x is bit x % 64 of word x / 64.
#![tactic(auto)]

pub mod lowest;
pub mod over;
pub mod set;
pub mod step;
pub mod steps;
pub mod union;
pub mod walk;
pub mod word;
