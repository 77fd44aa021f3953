// Sets of rows as words of 64 bits, and the rows of a set tested against a cube by the columns.
#![tactic(auto)]

mod copy;
pub mod narrow;
pub mod split;
pub mod whole;
