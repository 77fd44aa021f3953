// The answers of both calls, each packed into one number.
#![tactic(auto)]

pub mod answer;
pub mod verdict;
