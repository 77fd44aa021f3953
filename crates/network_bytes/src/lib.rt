// A network's bytes: checks 11 and 12, check 15 of the buffer for its wires, its products read as words, and words written as its bytes.
#![tactic(auto)]

pub mod check;
pub mod network;
pub mod read;
pub mod write;
