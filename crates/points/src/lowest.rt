// The lowest point of a set.
ghost use Rattle.std.specs.Prelude.{◌≡◌, length};
ghost use Rattle.hazard.specs.Implicant.{lowest_zero};
ghost use Rattle.cube.specs.Mask.{cube_of, Clean};
ghost use Rattle.cube.specs.PointSet.{in_set};
ghost use Rattle.points.specs.Walk.{lowest_on};

use crate::over::walk_over;
use crate::set::PointSet;
use crate::step::set_points;
use crate::steps::steps_of;
use crate::walk::Walk;
use crate::word::lowest_point;
use cube::inputs::Inputs;
use cube::mask::Cube;

// The lowest point of the set that the walk comes to. Each word gives its 64 points at once; one that has no point of the walk, because all are
// left out, is not read. Other searches over a walk read other words of a step; one function for all, with a closure that reads them, would have a
// contract longer than this loop.
pub fn lowest_on(set: &[u64], k: Walk) -> Option<u16>
    requires { length set.now ≡ 16 }
    ensures { result ≡ lowest_on k (in_set set.now) }
{
    for step in steps_of(k) {
        if step.mask == 0 {
            continue;
        }
        let common = set_points(set, step);
        if common != 0 {
            return Some(lowest_point(step.word, common));
        }
    }
    None
}

// The lowest point of the set in the cube.
pub fn lowest_in(n: Inputs, set: &[u64], c: Cube) -> Option<u16>
    requires { (length set.now ≡ 16) × Clean n.count c }
    ensures { result ≡ lowest_zero n.count (in_set set.now) (cube_of n.count c) }
{
    lowest_on(set, walk_over(n, c))
}

impl PointSet {
    // The lowest point of the set that the walk comes to.
    pub fn lowest_on(&self, k: Walk) -> Option<u16>
        ensures { result ≡ lowest_on k (in_set self.now.words) }
    {
        lowest_on(&self.words, k)
    }

    // The lowest point of the set in the cube.
    pub fn lowest_in(&self, n: Inputs, c: Cube) -> Option<u16>
        requires { Clean n.count c }
        ensures { result ≡ lowest_zero n.count (in_set self.now.words) (cube_of n.count c) }
    {
        lowest_in(n, &self.words, c)
    }
}
