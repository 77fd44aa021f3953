// The three conditions (a), (c), (b) on a network's products, each with its first failure.
#![tactic(auto)]

pub mod cover;
pub mod fault;
