// Cubes as two masks, and what the other layers do with them.
#![tactic(auto)]

pub mod bytes;
pub mod entry;
pub mod inputs;
pub mod mask;
pub mod member;
pub mod point;
pub mod word_mask;
