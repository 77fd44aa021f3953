// A product for a required cube, the forward choice with the first blocking cube, and those kept.
#![tactic(auto)]

pub mod choose;
pub mod covering;
pub mod near;
pub mod product;
pub mod select;
