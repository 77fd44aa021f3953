// Both calls for C and other languages: numbers and slices in, one u64 out. The contracts speak of what is read out of it.
#![tactic(auto)]

ghost use Rattle.hazard.specs.Minimal.{Promise};
ghost use Rattle.packing.specs.Packed.{unpacked_answer, ReadVerdict};

use minimiser::minimise::minimise;
use packing::answer::packed_answer;
use packing::verdict::packed_verdict;
use verifier::verify::verify;

// minimise: its buffer, and its answer packed.
#[unsafe(no_mangle)]
pub extern "C" fn quiet_minimise(
    n: usize,
    table: &[u8],
    transitions: &[u16],
    cover: &mut [u8],
) -> u64
    ensures { Promise n table.now transitions.now cover.old cover.new (unpacked_answer result) }
{
    packed_answer(minimise(n, table, transitions, cover))
}

// verify: its buffer, and its verdict packed.
#[unsafe(no_mangle)]
pub extern "C" fn quiet_verify(
    n: usize,
    table: &[u8],
    transitions: &[u16],
    network: &[u8],
    wires: &mut [u16],
) -> u64
    ensures { ReadVerdict n table.now transitions.now network.now wires.old wires.new result }
{
    packed_verdict(verify(n, table, transitions, network, wires))
}
