// Both calls against a counterpart that moves wires and tries sets of products.
#![tactic(auto)]

mod counts;
mod draw;
mod drawn;
mod faults;
mod instance;
mod minimising;
mod named;
mod network;
mod product;
mod replay;
mod report;
mod required;
mod samples;
mod set;
mod showing;
mod table;
mod transition;
mod trial;
mod trying;
mod verifying;
mod wires;

use crate::counts::Counts;
use crate::instance::Instance;
use crate::samples::{all_of_two, sample};
use crate::table::Table;
use crate::transition::Transition;
use std::alloc::{AllocError, Global};

// How many tables of two inputs there are, and of three, and how many seeded instances of three and of four are taken.
const TWO: u64 = 81;

const TABLES: u64 = 6561;

const THREE: u64 = 100000;

const FOUR: u64 = 150000;

// A table of two inputs with one of the 16 transitions.
fn with_transition(alloc: Global, code: u64) -> Result<Instance, AllocError> {
    let table = Table::with_code(2, code / 16);
    let t = Transition {
        from: table.point_from(code),
        to: table.point_from(code / 4),
    };
    Instance::new(alloc, table, vec![in alloc; t]?)
}

fn without_transition(alloc: Global, n: u16, code: u64) -> Result<Instance, AllocError> {
    Instance::new(alloc, Table::with_code(n, code), Vec::new(alloc))
}

// A part of the report. Of a write that fails nobody is told: what a test prints is compared with the file `stdout` of its crate, and what
// is missing shows there.
fn tell<R: Print>(rt: &R, title: &str, counts: Counts) {
    let _ = print!(rt; "{title}\n{counts}");
}

// The number of inputs is the seed of a sample. That memory runs out is told.
fn main(rt: HostRuntime) -> Result<(), AllocError> {
    let alloc = rt.alloc();
    let counts = all_of_two(alloc, TWO * 16, |code| with_transition(alloc, code))?;
    tell(
        &rt,
        "2 inputs: all tables, all transitions, all sets of products",
        counts,
    );
    let counts = all_of_two(alloc, TWO, |code| without_transition(alloc, 2, code))?;
    tell(
        &rt,
        "2 inputs: all tables, no transition, all sets of products",
        counts,
    );
    let table = |code: u64, _: u64| without_transition(alloc, 3, code);
    let counts = sample(alloc, TABLES, 3, table)?;
    tell(&rt, "3 inputs: all tables, no transition", counts);
    let drawn = |_: u64, seed: u64| Instance::drawn(alloc, 3, 5, seed);
    let counts = sample(alloc, THREE, 3, drawn)?;
    tell(&rt, "3 inputs: seeded, up to 5 transitions", counts);
    let drawn = |_: u64, seed: u64| Instance::drawn(alloc, 4, 8, seed);
    let counts = sample(alloc, FOUR, 4, drawn)?;
    tell(&rt, "4 inputs: seeded, up to 8 transitions", counts);
    Ok(())
}
