// The rows of a set that allow a cube's digits.
ghost use Rattle.std.specs.Prelude.{◌≡◌, ◌&&◌, ℕ, ◌+◌, ◌*◌, ◌≤◌, ◌<◌, length, get_or};
ghost use Rattle.std.specs.Int.Bits.{bit_and};
ghost use Rattle.cube.specs.PointSet.{in_set};
ghost use Rattle.blocks.specs.Blocks.{stride, allowed_to};

use blocks::word::run;
use cube::inputs::Inputs;
use cube::mask::{Cube, digit_at};

// Each word of the set, with the words at its place of two runs. Not by `zip`: of what is written through that no proof learns anything.
fn narrow_by(first: &[u64], second: &[u64], rows: &mut [u64])
    requires { (length rows.old ≤ length first.now) × (length rows.old ≤ length second.now) }
    ensures { (b : ℕ) → b < length rows.old → get_or rows.new b 0 ≡ bit_and (get_or rows.old b 0) (bit_and (get_or first.now b 0) (get_or second.now b 0)) }
{
    for (b, word) in rows.iter_mut().enumerate() {
        *word &= first[b] & second[b];
    }
}

// The rows that allow the digit of each input stay. The words of one input and digit lie side by side, so that the inner loop is two ANDs a
// word for two inputs; the last of an odd number of inputs is taken twice. The number of inputs is no field beside the columns: callers with a
// context have it there, and would make such a struct for each call.
pub fn narrow(n: Inputs, columns: &[u64], c: Cube, rows: &mut [u64])
    requires { length rows.old ≤ stride columns.now }
    ensures { (k : ℕ) → k < 64 * length rows.old → in_set rows.new k ≡ (in_set rows.old k && allowed_to columns.now k c n.count) }
{
    for i in (0..n.count).step_by(2) {
        let j = (i + 1).min(n.count - 1);
        narrow_by(
            run(columns, i, digit_at(c, i)),
            run(columns, j, digit_at(c, j)),
            rows,
        );
    }
}
