// Products in sequence: which of two comes first, and a sort of packed words by it.
#![tactic(auto)]

pub mod order;
pub mod sort;
