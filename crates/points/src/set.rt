// A set of points of up to ten inputs, and sets made from sets.
ghost use Rattle.std.specs.Prelude.{◌≡◌, false, not, ◌&&◌, ◌<◌, T};
ghost use Rattle.cube.specs.PointSet.{in_set};
ghost use Rattle.points.specs.PointWord.{WordOf, masked};

use crate::step::set_points;
use crate::walk::Step;

// Point x is bit x % 64 of word x / 64.
#[derive(Clone, Copy)]
pub struct PointSet {
    pub words: [u64; 16],
}

impl PointSet {
    // No point.
    pub fn empty() -> PointSet
        ensures { (x : _) → in_set result.words x ≡ false }
    {
        PointSet { words: [0; 16] }
    }

    // The point is in the set.
    pub fn has(&self, x: u16) -> bool
        requires { x < 1024 }
        ensures { result ≡ in_set self.now.words x }
    {
        let i = x as usize;
        (self.words[i / 64] >> (i % 64)) & 1 == 1
    }

    // The points of the step's word that are in the set, among the step's.
    pub fn points_at(&self, s: Step) -> u64
        requires { s.word < 16 }
        ensures { WordOf (masked s.mask (in_set self.now.words)) s.word result }
    {
        set_points(&self.words, s)
    }

    // The points that are not in the other set. By number, and not `zip`: of what is written through that no proof learns anything.
    pub fn without(&self, other: &PointSet) -> PointSet
        ensures { (x : _) → in_set result.words x ≡ (in_set self.now.words x && not (in_set other.now.words x)) }
    {
        let mut words = self.words;
        for (w, word) in words.iter_mut().enumerate() {
            *word &= !other.words[w];
        }
        PointSet { words }
    }
}
