// Bytes, numbers, fields and product lines, written to the beginning of a buffer.
#![tactic(auto)]

pub mod put;
