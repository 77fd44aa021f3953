// The words that have points of a cube, one after another, each with the bits of it that are points: inputs 0 to 5 choose the bit, the
// inputs from 6 on choose the word. The points of another cube can be left out.
ghost use Rattle.cube.specs.Mask.{Clean};

use cube::mask::Cube;

// The words and the bits of a cube, and of the one that is left out. There are sixteen words.
#[derive(Clone, Copy)]
pub struct Walk {
    pub words: Cube,
    pub mask: u64,
    pub old: Cube,
    pub gone: u64,
    ghost fits: { Clean 4 words },
}

// A word of a walk, and its bits that are points. A number from 16 on ends the walk: so that it is below is asked where a word is read.
#[derive(Clone, Copy)]
pub struct Step {
    pub word: usize,
    pub mask: u64,
}
