// The rows of a set that allow a cube's digits go over into another set.
ghost use Rattle.std.specs.Prelude.{◌≡◌, ℕ, ◌≤◌, ◌<◌, length, get_or};
ghost use Rattle.std.specs.Int.Bits.{bit_and, bit_xor};
ghost use Rattle.blocks.specs.Blocks.{stride, allowed_to};
ghost use Rattle.rows.specs.Sets.{Split};

use crate::copy::copy_into;
use crate::narrow::narrow;
use cube::inputs::Inputs;
use cube::mask::Cube;

// The rows of the other set leave. Not by `zip`, as in `narrow_by`.
fn remove(set: &mut [u64], other: &[u64])
    requires { length other.now ≡ length set.old }
    ensures { (b : ℕ) → b < length other.now → get_or set.new b 0 ≡ bit_xor (get_or set.old b 0) (bit_and (get_or set.old b 0) (get_or other.now b 0)) }
{
    for (b, word) in set.iter_mut().enumerate() {
        *word ^= *word & other[b];
    }
}

// Those of the set that allow the cube's digits, and the set without them.
pub fn split(n: Inputs, columns: &[u64], c: Cube, set: &mut [u64], taken: &mut [u64])
    requires { (length set.old ≤ stride columns.now) × (length taken.old ≡ length set.old) }
    ensures { Split (λ k. allowed_to columns.now k c n.count) set.old set.new taken.new }
{
    copy_into(set, taken);
    narrow(n, columns, c, taken);
    remove(set, taken);
}
