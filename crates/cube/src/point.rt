// Points: their inputs, moves of one input, and the points of a cube in ascending order.
ghost use Rattle.std.specs.Prelude.{◌≡◌, ◌≤◌, ◌<◌, ◌^◌, T};
ghost use Rattle.hazard.specs.Cube.{bit, flip, has};
ghost use Rattle.cube.specs.Mask.{cube_of, Clean};
ghost use Rattle.cube.specs.Next.{Next};

use crate::inputs::Inputs;
use crate::mask::Cube;

// The value of input i at x.
pub fn bit_of(x: u16, i: usize) -> u16
    requires { i < 16 }
    ensures { result ≡ bit x i }
{
    (x >> i) & 1
}

// x with input i moved.
pub fn flipped(x: u16, i: usize) -> u16
    requires { i < 16 }
    ensures { result ≡ flip x i }
{
    x ^ (1u16 << i)
}

// The point of the cube after x, or a number past the last point. The literals are all 1 in `x | care`, so the 1 that is added carries
// over them.
pub fn next(n: Inputs, c: Cube, x: usize) -> usize
    requires { Clean n.count c × (x < 2 ^ n.count) × T (has (cube_of n.count c) x) }
    ensures { Next n.count (cube_of n.count c) x result }
{
    let care = c.care as usize;
    let y = (x | care) + 1;
    (y ^ (y & care)) | (c.value as usize)
}
