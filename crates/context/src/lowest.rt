// What growth and condition (a) read of the OFF-set: the lowest zero of a cube, or of the points that a step adds to it.
ghost use Rattle.std.specs.Prelude.{◌≡◌, Bool, ℕ, ◌<◌, set};
ghost use Rattle.hazard.specs.Cube.{bit};
ghost use Rattle.hazard.specs.Implicant.{lowest_zero};
ghost use Rattle.hazard.specs.Added.{AgreeOnAdded, lowest_added};
ghost use Rattle.cube.specs.Mask.{cube_of, Clean};
ghost use Rattle.cube.specs.PointSet.{in_set};

use cube::inputs::Inputs;
use cube::mask::Cube;
use points::over::{walk_added, walk_raised};
use points::set::PointSet;

// The lowest zero of a cube.
pub fn lowest_zero(off: &PointSet, n: Inputs, c: Cube) -> Option<u16>
    requires { Clean n.count c }
    ensures { result ≡ lowest_zero n.count (in_set off.now.words) (cube_of n.count c) }
{
    off.lowest_in(n, c)
}

// The lowest zero among the points that the new cube has and the old one has not: for every other OFF-set that agrees with this one on them
// it is the same, so that no other point is asked. Only the words that hold such a point are read.
pub fn lowest_added(off: &PointSet, n: Inputs, old: Cube, new: Cube) -> Option<u16>
    requires { Clean n.count old × Clean n.count new }
    ensures { (other : ℕ → Bool) → AgreeOnAdded n.count (in_set off.now.words) other (cube_of n.count old) (cube_of n.count new) → result ≡ lowest_added n.count other (cube_of n.count old) (cube_of n.count new) }
{
    off.lowest_on(walk_added(n, old, new))
}

// The same where the literal of input i is raised.
pub fn lowest_raised(off: &PointSet, n: Inputs, c: Cube, i: usize) -> Option<u16>
    requires { Clean n.count c × (i < n.count) × (bit c.care i ≡ 1) }
    ensures { (other : ℕ → Bool) → AgreeOnAdded n.count (in_set off.now.words) other (cube_of n.count c) (set (cube_of n.count c) i 2) → result ≡ lowest_added n.count other (cube_of n.count c) (set (cube_of n.count c) i 2) }
{
    off.lowest_on(walk_raised(n, c, i))
}
