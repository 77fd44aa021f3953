// The walks over the points of a cube.
ghost use Rattle.std.specs.Prelude.{◌≡◌, ◌<◌, set};
ghost use Rattle.hazard.specs.Cube.{bit, has};
ghost use Rattle.hazard.specs.Added.{added};
ghost use Rattle.cube.specs.Mask.{cube_of, Clean};
ghost use Rattle.points.specs.Walk.{Ten, Walks};

use crate::walk::Walk;
use cube::inputs::Inputs;
use cube::mask::{Cube, inverted};
use cube::word_mask::{low_mask, word_cube};

// A cube of n inputs as one of ten: the other inputs are 0.
fn in_ten(n: Inputs, c: Cube) -> Cube
    requires { Clean n.count c }
    ensures { Ten n.count c result }
{
    Cube {
        care: c.care + (1024 - (1u16 << n.count)),
        value: c.value,
    }
}

// All points of a cube. Nothing is left out by an old cube of all points with no bits gone, and not by an option, which each step would ask.
pub fn walk_over(n: Inputs, c: Cube) -> Walk
    requires { Clean n.count c }
    ensures { Walks n.count result (has (cube_of n.count c)) }
{
    let d = in_ten(n, c);
    Walk {
        words: word_cube(d),
        mask: low_mask(d),
        old: Cube { care: 0, value: 0 },
        gone: 0,
    }
}

// The points of the new cube that are not in the old one.
pub fn walk_added(n: Inputs, old: Cube, new: Cube) -> Walk
    requires { Clean n.count old × Clean n.count new }
    ensures { Walks n.count result (added (cube_of n.count old) (cube_of n.count new)) }
{
    let d = in_ten(n, old);
    let e = in_ten(n, new);
    Walk {
        words: word_cube(e),
        mask: low_mask(e),
        old: word_cube(d),
        gone: low_mask(d),
    }
}

// The points that raising the literal of input i adds: a cube too, so that no bit is to be left out, and there are half as many words where the
// input chooses the word.
pub fn walk_raised(n: Inputs, c: Cube, i: usize) -> Walk
    requires { Clean n.count c × (i < n.count) × (bit c.care i ≡ 1) }
    ensures { Walks n.count result (added (cube_of n.count c) (set (cube_of n.count c) i 2)) }
{
    walk_over(n, inverted(c, i))
}
