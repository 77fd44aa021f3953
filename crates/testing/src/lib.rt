// What the test programs share.
#![tactic(auto)]

pub mod calls;
pub mod due;
pub mod marks;
pub mod products;
pub mod replay;
pub mod report;
pub mod wires;
