// Tables of values: runs, or one of two tables of 10 inputs that have a rule.
use crate::runs::bytes_into;

// L: 1 but for points below 32 with more than two 1s: ten points, those below 32 with exactly two, are the last 1s on the way from 0 to 31.
fn layer(x: u16) -> u8 {
    u8::from(32 <= x || x.count_ones() <= 2)
}

// P: 1 at an odd number of 1s: no 1 is next to another.
fn parity(x: u16) -> u8 {
    u8::from(x.count_ones() % 2 == 1)
}

// A table by its rule, and its length.
fn ruled<F: Fn(u16) -> u8>(table: &mut [u8], rule: F) -> usize
    requires { F.IsAlwaysCallable rule }
{
    for (x, value) in (0..1024).zip(table.iter_mut()) {
        *value = rule(x);
    }
    1024
}

// The table that a text begins with, and its length: maybe more than there are places.
pub(crate) fn table_into<'a>(text: &'a [u8], table: &mut [u8]) -> (usize, &'a [u8]) {
    if let Some(rest) = text.strip_prefix(b"L") {
        return (ruled(table, layer), rest);
    }
    if let Some(rest) = text.strip_prefix(b"P") {
        return (ruled(table, parity), rest);
    }
    bytes_into(text, table)
}
