// A case is a line: `NAME: N; TABLE; TRANSITIONS; SIZE` for both calls with a buffer of this size, or `NAME: N; TABLE; TRANSITIONS;
// = NETWORK; SIZE` for the verifier alone with a wire buffer of this size. Without a size, and where both are called, the wire buffer is as
// long as any run needs. The table, the transitions and the network are runs; the tables L and P have a rule. A field ends where it can be
// read no further, so that every text is a case; of one that asks for more room than there is the name alone is printed.
use crate::report::{Kept, WrittenText};
use crate::runs::{LONGEST, bytes_into, numbers_into};
use crate::tables::table_into;
use crate::text::{after, number, skip};
use hazard::limits::{MOST_COVER, MOST_WIRES};
use std::io;
use std::io::Write;
use testing::calls::Problem;
use testing::marks::{MARK, WIRE_MARK};
use testing::report::RefusalText;

// The numbers of the longest wire buffer: two for each byte of the longest network that is read.
const MOST_NUMBERS: usize = 2 * LONGEST;

// The verifier with a wire buffer of this size.
fn verifies<R: Print>(rt: &R, problem: Problem<'_>, network: &[u8], size: usize) -> io::Result<()> {
    let mut room = [WIRE_MARK; MOST_NUMBERS];
    let Some(wires) = room.get_mut(..size) else {
        return Ok(());
    };
    match problem.verified(network, wires) {
        Err(r) => {
            let refusal = RefusalText(r);
            let buffer = Kept::of_wires("wire buffer", wires);
            println!(rt; "{refusal}, {buffer}")
        }
        Ok(shown) => {
            let verdict = problem.text(network, shown);
            let name = if shown.count == 0 {
                "wire buffer"
            } else {
                "rest"
            };
            let rest = Kept::of_wires(name, shown.rest);
            println!(rt; "{verdict}, {rest}")
        }
    }
}

// The minimiser with a buffer of this size, and the verifier on what it wrote: no products after a refusal.
fn both<R: Print>(rt: &R, problem: Problem<'_>, size: usize) -> io::Result<()> {
    let mut room = [MARK; MOST_COVER];
    let Some(cover) = room.get_mut(..size) else {
        return Ok(());
    };
    match problem.minimised(cover) {
        Err(r) => {
            let refusal = RefusalText(r);
            let buffer = Kept::of_bytes("buffer", cover);
            print!(rt; "{refusal}, {buffer}; ")?;
            verifies(rt, problem, &[], 2 * MOST_WIRES)
        }
        Ok(written) => {
            let rest = Kept::of_bytes("rest", written.rest);
            let products = WrittenText(written);
            print!(rt; "{products}, {rest}; ")?;
            verifies(rt, problem, written.products.bytes, 2 * MOST_WIRES)
        }
    }
}

// The wire buffer's size, where a field with a number stands here; else that of the longest run.
fn size_of(text: &[u8]) -> usize {
    match text.strip_prefix(b"; ") {
        Some(field) if field.first().is_some_and(u8::is_ascii_digit) => number(field).0 as usize,
        _ => 2 * MOST_WIRES,
    }
}

// The verifier on the network that a text begins with.
fn with_network<R: Print>(rt: &R, problem: Problem<'_>, text: &[u8]) -> io::Result<()> {
    let mut network = [0; LONGEST];
    let (count, rest) = bytes_into(skip(text, b' '), &mut network);
    let Some(network) = network.get(..count) else {
        return Ok(());
    };
    verifies(rt, problem, network, size_of(rest))
}

// What is left after a field's end.
fn next_field(text: &[u8]) -> &[u8] {
    skip(skip(text, b';'), b' ')
}

// The case that a text begins with. Where no colon follows, all of the text is its name.
pub(crate) fn run<R: Print>(rt: &R, text: &[u8]) -> io::Result<()> {
    let fields = skip(after(text, b':').unwrap_or(&[]), b' ');
    let (name, _) = text.split_at(text.len() - fields.len());
    io::writer(rt).write_all(name)?;
    let (n, rest) = number(fields);
    let mut table = [0; 2048];
    let (count, rest) = table_into(next_field(rest), &mut table);
    let Some(table) = table.get(..count) else {
        return Ok(());
    };
    let mut list = [0; 1024];
    let (count, rest) = numbers_into(next_field(rest), &mut list);
    let transitions = &list[..count];
    let n = n as usize;
    let problem = Problem {
        n,
        table,
        transitions,
    };
    let last = next_field(rest);
    match last.strip_prefix(b"=") {
        Some(network) => with_network(rt, problem, network),
        None => both(rt, problem, number(last).0 as usize),
    }
}
