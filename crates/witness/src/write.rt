// Wires written to the beginning of the buffer, two numbers each; each function answers how many numbers it wrote.
ghost use Rattle.std.specs.Prelude.{◌*◌, ◌≤◌, length};
ghost use Rattle.hazard.specs.Shown.{numbers};
ghost use Rattle.hazard.specs.Verdict.{products};
ghost use Rattle.writing.specs.Put.{Put};
ghost use Rattle.kinds.specs.Codes.{kind_is};
ghost use Rattle.witness.specs.Phase.{wire_if, in_phase_of};
ghost use Rattle.witness.specs.Shows.{phase_in};

use crate::phase::moves_in;
use crate::pulse::Pulse;
use network_bytes::network::NetworkBytes;

// The wire of input i in product m, if it is here.
fn write_wire(here: bool, m: u16, i: u16, wires: &mut [u16]) -> usize
    requires { length (numbers (wire_if here m i)) ≤ length wires.old }
    ensures { Put wires.old (numbers (wire_if here m i)) wires.new result }
{
    if here {
        wires[0] = m;
        wires[1] = i;
        return 2;
    }
    0
}

// The wires of product m, whose bytes are the digits, that move in phase q.
fn write_product(p: Pulse, q: u8, m: u16, digits: &[u8], wires: &mut [u16]) -> usize
    requires { (length digits.now ≤ 10) × (length (numbers (in_phase_of (kind_is p.kind) p.product p.ends.start p.ends.end q m digits.now)) ≤ length wires.old) }
    ensures { Put wires.old (numbers (in_phase_of (kind_is p.kind) p.product p.ends.start p.ends.end q m digits.now)) wires.new result }
{
    let mut at = 0;
    for (i, d) in digits.iter().enumerate() {
        at += write_wire(moves_in(p, q, m, i, *d), m, i as u16, &mut wires[at..]);
    }
    at
}

// The network's wires that move in phase q.
pub fn write_phase(p: Pulse, q: u8, network: NetworkBytes, wires: &mut [u16]) -> usize
    requires { length (numbers (phase_in p (products network.n.count network.bytes.now) q)) ≤ length wires.old }
    ensures { Put wires.old (numbers (phase_in p (products network.entry.n.count network.entry.bytes.now) q)) wires.new result }
{
    let mut at = 0;
    for (m, digits) in network.bytes.chunks_exact(network.n.count).enumerate() {
        at += write_product(p, q, m as u16, digits, &mut wires[at..]);
    }
    at
}
