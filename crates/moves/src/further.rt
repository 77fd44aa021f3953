// The points from which one move further, on the way from a to b, leads into a set. Inputs 0 to 5 move a point within its word, the
// inputs from 6 on into another word.
ghost use Rattle.std.specs.Prelude.{◌≡◌, ◌+◌, ◌^◌, ◌<◌};
ghost use Rattle.hazard.specs.Cube.{bit};
ghost use Rattle.cube.specs.PointSet.{in_set};
ghost use Rattle.points.specs.PointWord.{WordOf};
ghost use Rattle.moves.specs.Further.{Side, Within, moves_from, further_in};

use cube::inputs::Inputs;
use cube::member::Members;
use cube::point::{bit_of, flipped};
use points::set::PointSet;

// For each of the first six inputs: the bits of a word at which it is 0, and those at which it is 1.
const SIDES: [u64; 12] = [
    0x5555555555555555,
    0xaaaaaaaaaaaaaaaa,
    0x3333333333333333,
    0xcccccccccccccccc,
    0x0f0f0f0f0f0f0f0f,
    0xf0f0f0f0f0f0f0f0,
    0x00ff00ff00ff00ff,
    0xff00ff00ff00ff00,
    0x0000ffff0000ffff,
    0xffff0000ffff0000,
    0x00000000ffffffff,
    0xffffffff00000000,
];

// The bits of a word at which input i has the value `from`.
fn side(i: usize, from: u16) -> u64
    requires { (i < 6) × (from < 2) }
    ensures { Side i from result }
{
    SIDES[2 * i + from as usize]
}

// The points of a word that a move of input i, from the value `from`, takes into the word's set.
fn within(word: u64, i: usize, from: u16) -> u64
    requires { (i < 6) × (from < 2) }
    ensures { Within word i from result }
{
    let by = 1usize << i;
    let sided = side(i, from);
    if from == 0 {
        return (word >> by) & sided;
    }
    (word << by) & sided
}

// The points of word w that a move of input j + 6, from the value `from`, takes into the set.
fn across(set: &PointSet, w: usize, j: usize, from: u16) -> u64
    requires { (w < 16) × (j < 4) }
    ensures { WordOf (moves_from (in_set set.now.words) from (j + 6)) w result }
{
    let u = w as u16;
    if bit_of(u, j) != from {
        return 0;
    }
    set.words[flipped(u, j) as usize]
}

// The points of word w that a move of input i, from its value at a, takes into the set.
fn moving(set: &PointSet, a: u16, w: usize, i: usize) -> u64
    requires { (w < 16) × (i < 10) }
    ensures { WordOf (moves_from (in_set set.now.words) (bit a i) i) w result }
{
    let from = bit_of(a, i);
    if i < 6 {
        return within(set.words[w], i, from);
    }
    across(set, w, i - 6, from)
}

// The points of word w from which some move further leads into the set. The inputs that move are the members of a ^ b, one a turn.
// Two points and not a transition: in a rise the way goes from the transition's end to its start.
pub fn further_word(n: Inputs, set: &PointSet, a: u16, b: u16, w: usize) -> u64
    requires { (a < 2 ^ n.count) × (b < 2 ^ n.count) × (w < 16) }
    ensures { WordOf (further_in n.count (in_set set.now.words) a b) w result }
{
    let mut word = 0;
    for i in Members::of((a ^ b) as u64) {
        word |= moving(set, a, w, i);
    }
    word
}
