// A claim to be judged: that a network is hazard-free.
ghost use Rattle.std.specs.Prelude.{◌≡◌};

use context::context::Context;
use network_bytes::network::NetworkBytes;

// The context of an output, its required cubes as words, and a network for as many inputs.
#[derive(Clone, Copy)]
pub struct Claim<'a> {
    pub context: &'a Context,
    pub required: &'a [u64],
    pub network: NetworkBytes<'a>,
    ghost same: { context.now.n ≡ network.n },
}
