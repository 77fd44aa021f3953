// Choice: which of the chosen products are kept, with the laws of the choice, forwards and backwards.
#![tactic(auto)]

pub mod keep;
