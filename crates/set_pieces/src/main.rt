// The twelve set pieces, run through both calls.
#![tactic(auto)]

use std::io;
use testing::calls::{Problem, Written};
use testing::marks::{MARK, WIRE_MARK};
use testing::report::RefusalText;

#[derive(Clone, Copy)]
struct Piece<'a> {
    name: &'a str,
    problem: Problem<'a>,
    // the network that is judged; with none the minimiser makes one
    network: Option<&'a [u8]>,
}

impl<'a> Piece<'a> {
    // The verdict on a network, with its run if one shows it. No piece has a network of more than nine bytes.
    fn verifies<R: Print>(&self, rt: &R, network: &[u8]) -> io::Result<()> {
        let problem = self.problem;
        let mut wires = [WIRE_MARK; 18];
        match problem.verified(network, &mut wires) {
            Err(r) => {
                let refusal = RefusalText(r);
                println!(rt; "{refusal}")
            }
            Ok(shown) => {
                let verdict = problem.text(network, shown);
                println!(rt; "{verdict}")
            }
        }
    }

    // The minimiser's answer, and the verifier's verdict on the network that it wrote.
    fn minimises<R: Print>(&self, rt: &R) -> io::Result<()> {
        let mut cover = [MARK; 32];
        let answer = self.problem.minimised(&mut cover);
        match answer {
            Err(r) => {
                let refusal = RefusalText(r);
                println!(rt; "{refusal}")
            }
            Ok(written) => {
                let Written {
                    count,
                    products,
                    ..
                } = written;
                print!(rt; "products {count}{products}, verdict ")?;
                self.verifies(rt, products.bytes)
            }
        }
    }

    fn run<R: Print>(&self, rt: &R) -> io::Result<()> {
        let name = self.name;
        print!(rt; "{name} ")?;
        if let Some(network) = self.network {
            self.verifies(rt, network)
        } else {
            self.minimises(rt)
        }
    }
}

fn problem<'a>(n: usize, table: &'a [u8], transitions: &'a [u16]) -> Problem<'a> {
    Problem {
        n,
        table,
        transitions,
    }
}

fn minimised<'a>(name: &'a str, problem: Problem<'a>) -> Piece<'a> {
    Piece {
        name,
        problem,
        network: None,
    }
}

fn verified<'a>(name: &'a str, problem: Problem<'a>, network: &'a [u8]) -> Piece<'a> {
    Piece {
        name,
        problem,
        network: Some(network),
    }
}

fn main(rt: HostRuntime) {
    let static_one = problem(3, &[0, 1, 0, 1, 0, 0, 1, 1], &[3, 7]);
    let two_transitions = problem(3, &[0, 2, 1, 1, 1, 2, 1, 0], &[2, 7, 6, 0]);
    let fall = problem(2, &[1, 1, 1, 0], &[0, 3]);
    let pieces = [
        minimised("K1", problem(1, &[1, 1], &[0, 1])),
        minimised("K2", fall),
        minimised("K3", problem(2, &[0, 1, 1, 1], &[1, 2])),
        minimised("K4", static_one),
        verified("K5", static_one, &[1, 2, 0, 2, 1, 1]),
        verified("K6", static_one, &[1, 2, 0, 2, 1, 1, 1, 1, 2]),
        minimised("K7", two_transitions),
        minimised("K8", problem(3, &[0, 2, 1, 1, 1, 2, 1, 2], &[2, 3, 6, 0])),
        verified("K9", two_transitions, &[2, 1, 0, 0, 1, 2, 0, 2, 1]),
        minimised("K10", problem(1, &[1, 2], &[0, 1])),
        verified("K11", fall, &[2, 2]),
        verified("K12", fall, &[]),
    ];
    for piece in &pieces {
        // Of a write that fails nobody is told: what a test prints is compared with the file `stdout` of its crate, and what is missing
        // shows there.
        let _ = piece.run(&rt);
    }
}
