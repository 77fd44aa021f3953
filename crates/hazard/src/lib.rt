// The definitions stand in specs/, the theory in proofs/. What the code needs of them as numbers is here.
#![tactic(auto)]

pub mod limits;
