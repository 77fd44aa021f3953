// Words stored one after another, and required cubes as such words.
#![tactic(auto)]

pub mod required;
pub mod store;
