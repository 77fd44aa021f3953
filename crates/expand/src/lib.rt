// Growth of cubes to dhf-implicants, expansion to dhf-primes, and the refusal of a required cube that blocks.
#![tactic(auto)]

pub mod blocking;
pub mod growth;
pub mod prime;
