// The points of a cube, 64 at a time: inputs 0 to 5 choose the bit of a word, the inputs from 6 on choose the word.
ghost use Rattle.cube.specs.Mask.{Clean};
ghost use Rattle.cube.specs.WordMask.{Marks, Words};

use crate::mask::Cube;

// The bits of a word that are points of the cube, by inputs 0 to 5. An input without a literal sets the bits once more, moved by its
// weight; at the end the literals that are 1 move them all. No step has a branch: an input with a literal moves the bits by 0.
pub fn low_mask(c: Cube) -> u64
    ensures { Marks c 6 result }
{
    let mut m = 1u64;
    for i in 0..6usize {
        let weight = 1usize << i;
        m |= m << (weight ^ (c.care as usize & weight));
    }
    m << ((c.care & c.value) % 64)
}

// The words that have points of the cube, as a cube of the inputs from 6 on.
pub fn word_cube(c: Cube) -> Cube
    requires { Clean 10 c }
    ensures { Words c result }
{
    Cube {
        care: c.care / 64,
        value: c.value / 64,
    }
}
