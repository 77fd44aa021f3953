// The run that shows a verdict, written.
ghost use Rattle.std.specs.Prelude.{◌*◌, ◌≤◌, length};
ghost use Rattle.hazard.specs.Verdict.{products};
ghost use Rattle.hazard.specs.Pulse.{run_for};
ghost use Rattle.context.specs.Context.{table_in};
ghost use Rattle.conditions.specs.Answer.{verdict_of};
ghost use Rattle.witness.specs.Shows.{run_in, Named, Written};

use crate::pulse::{Pulse, witness_for};
use crate::write::write_phase;
use conditions::fault::Verdict;
use kinds::problem::Problem;
use network_bytes::network::NetworkBytes;

// The run, phase after phase; how many wires.
fn write_run(p: Pulse, network: NetworkBytes, wires: &mut [u16]) -> usize
    requires { 2 * length (run_in p (products network.n.count network.bytes.now)) ≤ length wires.old }
    ensures { Written (run_in p (products network.entry.n.count network.entry.bytes.now)) wires.old wires.new result }
{
    let first = write_phase(p, 0, network, wires);
    let second = first + write_phase(p, 1, network, &mut wires[first..]);
    let third = second + write_phase(p, 2, network, &mut wires[second..]);
    third / 2
}

// What shows the verdict is written, if that is a run; how many wires. The rest of the buffer keeps its contents.
pub fn show(problem: &Problem, network: NetworkBytes, v: Verdict, wires: &mut [u16]) -> usize
    requires named { Named problem.now.transitions.list.now (verdict_of v) }
    requires room { 2 * length (run_for (table_in problem.now.planes) problem.now.transitions.list.now (products network.n.count network.bytes.now) (verdict_of v)) ≤ length wires.old }
    ensures { Written (run_for (table_in problem.now.planes) problem.now.transitions.list.now (products network.entry.n.count network.entry.bytes.now) (verdict_of v)) wires.old wires.new result }
{
    match witness_for(&problem.planes.ones, problem.transitions.list, v) {
        Some(p) => write_run(p, network, wires),
        None => 0,
    }
}
