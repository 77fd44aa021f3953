// A network's products, written as bytes.
ghost use Rattle.std.specs.Prelude.{◌≡◌, ◌++◌, ◌*◌, ◌≤◌, length, drop};
ghost use Rattle.hazard.specs.Limits.{most_required};
ghost use Rattle.hazard.specs.Minimal.{bytes_of};
ghost use Rattle.cube.specs.Entry.{network_in};

use cube::bytes::write_product;
use cube::entry::cube_in;
use cube::inputs::Inputs;

// The products, one after another; the bytes after the last keep their contents. By places, and not chunks: n may be 0.
pub fn write_network(n: Inputs, products: &[u64], cover: &mut [u8])
    requires { (length products.now ≤ most_required) × (length products.now * n.count ≤ length cover.old) }
    ensures { cover.new ≡ bytes_of (network_in n.count products.now) ++ drop (length products.now * n.count) cover.old }
{
    for (j, product) in products.iter().enumerate() {
        let at = j * n.count;
        write_product(cube_in(*product), &mut cover[at..at + n.count]);
    }
}
