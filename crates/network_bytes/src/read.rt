// A network's products as packed words.
ghost use Rattle.std.specs.Prelude.{◌/◌, ◌≤◌, length};
ghost use Rattle.network_bytes.specs.Network.{Read};

use crate::network::NetworkBytes;
use cube::bytes::product_of;
use cube::entry::pack;

// The products, stored as words from the first on; how many. By number, and not `zip`: of what is written through that no proof learns anything.
pub fn read_network(network: NetworkBytes, out: &mut [u64]) -> usize
    requires { length network.bytes.now / network.n.count ≤ length out.old }
    ensures { Read network.entry.n.count network.entry.bytes.now out.new result }
{
    for (j, product) in network.bytes.chunks_exact(network.n.count).enumerate() {
        out[j] = pack(0, 0, product_of(product));
    }
    network.count()
}
