// A flag for each required cube: it lies in a product chosen so far.
ghost use Rattle.std.specs.Prelude.{◌≡◌, ℕ, ◌≤◌, ◌<◌, T, length};
ghost use Rattle.cube.specs.PointSet.{in_set};
ghost use Rattle.blocks.specs.Blocks.{allowed_to};
ghost use Rattle.rows.specs.Sets.{Fits};
ghost use Rattle.flags.specs.Flag.{Flagging};

use crate::put::put;
use cube::inputs::Inputs;
use cube::mask::Cube;
use rows::split::split;

// A product has come: the required cubes in it are flagged. `uncovered` is the set of those not flagged yet, so that the others are not
// looked at again; those in the product go over from it into `taken`. `columns` has the required cubes for its rows.
pub fn flag_product(
    n: Inputs,
    columns: &[u64],
    c: Cube,
    uncovered: &mut [u64],
    taken: &mut [u64],
    flags: &mut [bool],
)
    requires fits { Fits columns.now uncovered.old × (length taken.old ≡ length uncovered.old) }
    requires room { (i : ℕ) → T (in_set uncovered.old i) → i < length flags.old }
    ensures { Flagging (λ i. allowed_to columns.now i c n.count) uncovered.old uncovered.new taken.new flags.old flags.new }
{
    split(n, columns, c, uncovered, taken);
    put(flags, taken, true);
}
