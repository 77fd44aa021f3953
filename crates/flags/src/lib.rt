// Flags: the required cubes that lie in a product, and the place of the first product of each.
#![tactic(auto)]

pub mod first;
pub mod flag;
pub mod put;
