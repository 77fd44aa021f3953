// Which required cubes are worth trying with a product. Any answer is right: no promise rests on it.
ghost use Rattle.std.specs.Prelude.{◌≤◌, ◌<◌};
ghost use Rattle.blocks.specs.Blocks.{stride};

use blocks::word::word_at;
use cube::inputs::Inputs;
use cube::mask::{Cube, digit_at};

// The rows of block b with a literal of input i that the supercube with the cube loses.
fn losing(columns: &[u64], b: usize, c: Cube, i: usize) -> u64
    requires { (b < stride columns.now) × (i < 10) }
{
    let zero = word_at(columns, i, 0, b);
    let one = word_at(columns, i, 1, b);
    match digit_at(c, i) {
        0 => one,
        1 => zero,
        _ => zero | one,
    }
}

// The rows of block b that lose at most two literals: supercubes with the others mostly have a zero. The literals are counted for all 64
// rows at once, in two bits each; `many` has those that lose four and more.
pub(crate) fn near(n: Inputs, columns: &[u64], b: usize, c: Cube) -> u64
    requires { b < stride columns.now }
{
    let mut low = 0u64;
    let mut high = 0u64;
    let mut many = 0u64;
    for i in 0..n.count {
        let lost = losing(columns, b, c, i);
        let carry = low & lost;
        low ^= lost;
        many |= high & carry;
        high ^= carry;
    }
    !(many | (low & high))
}
