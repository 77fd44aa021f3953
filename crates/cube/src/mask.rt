// A cube as two masks: its operations, by bit operations and no loop.
ghost use Rattle.std.specs.Prelude.{◌≡◌, ℕ, ◌≤◌, ◌<◌, ◌^◌, set};
ghost use Rattle.hazard.specs.Cube.{span, join, supercube, inside};
ghost use Rattle.cube.specs.Invert.{invert};
ghost use Rattle.cube.specs.Mask.{digit_at, cube_of, Clean, Stands};

use crate::inputs::Inputs;

// Bit i of care: input i has a literal. Bit i of value: that literal, 0 where there is none. That they are masks of n inputs (`Clean`) is asked where
// it counts and is no fact of the type: a cube is read out of any word. Inputs and points
// are plain numbers, asked to be small, for a like reason: they come out of words, lists and bits.
#[derive(Clone, Copy)]
pub struct Cube {
    pub care: u16,
    pub value: u16,
}

// The digit of the cube at input i: a number and no enum, since it is a byte of a product and the place of a run of columns.
pub fn digit_at(c: Cube, i: usize) -> usize
    requires { i < 16 }
    ensures { (result ≡ digit_at c i) × (result < 3) }
{
    if (c.care >> i) % 2 == 0 {
        return 2;
    }
    ((c.value >> i) % 2) as usize
}

// The cube c lies inside d. No `PartialOrd`, which wants cubes inside each other to be equal: values without a literal are not looked at.
pub fn lies_inside(c: Cube, d: Cube) -> bool
    ensures { (n : ℕ) → d.care < 2 ^ n → result ≡ inside (cube_of n c) (cube_of n d) }
{
    d.care & ((c.care ^ d.care) | (c.value ^ d.value)) == 0
}

// [P,Q].
pub fn span_of(n: Inputs, p: u16, q: u16) -> Cube
    requires { (p < 2 ^ n.count) × (q < 2 ^ n.count) }
    ensures { Stands n.count result (span n.count p q) }
{
    let care = ((1u16 << n.count) - 1) ^ (p ^ q);
    Cube {
        care,
        value: p & care,
    }
}

// The smallest cube around a cube and a point. Not by `supercube_of`: as a cube a point has as many literals as there are inputs, which are not
// known here.
pub fn joined(c: Cube, x: u16) -> Cube
    ensures { (n : ℕ) → c.care < 2 ^ n → Stands n result (join (cube_of n c) x) }
{
    let care = c.care ^ ((c.value ^ x) & c.care);
    Cube {
        care,
        value: c.value & care,
    }
}

// The smallest cube around two cubes.
pub fn supercube_of(c: Cube, d: Cube) -> Cube
    ensures { (n : ℕ) → c.care < 2 ^ n → Stands n result (supercube (cube_of n c) (cube_of n d)) }
{
    let both = c.care & d.care;
    let care = both ^ ((c.value ^ d.value) & both);
    Cube {
        care,
        value: c.value & care,
    }
}

// The cube with the literal of input i raised.
pub fn raised(c: Cube, i: usize) -> Cube
    requires { i < 16 }
    ensures { (n : ℕ) → c.care < 2 ^ n → Stands n result (set (cube_of n c) i 2) }
{
    let care = c.care ^ (c.care & (1u16 << i));
    Cube {
        care,
        value: c.value & care,
    }
}

// The cube with the literal of input i inverted: the points that raising it adds. With no literal there, the cube itself.
pub fn inverted(c: Cube, i: usize) -> Cube
    requires { i < 16 }
    ensures { (n : ℕ) → Clean n c → Stands n result (invert (cube_of n c) i) }
{
    Cube {
        care: c.care,
        value: c.value ^ (c.care & (1u16 << i)),
    }
}
