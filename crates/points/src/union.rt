// A set of points, with the points of a cube taken in.
ghost use Rattle.std.specs.Prelude.{◌≡◌, ◌&&◌, ◌^◌, ltb, length};
ghost use Rattle.hazard.specs.Cube.{has};
ghost use Rattle.cube.specs.Mask.{cube_of, Clean};
ghost use Rattle.points.specs.Union.{Joined};

use crate::over::walk_over;
use crate::set::PointSet;
use crate::steps::steps_of;
use cube::inputs::Inputs;
use cube::mask::Cube;

// The points of the cube join the set, word by word.
pub fn cube_into(n: Inputs, c: Cube, set: &mut [u64])
    requires { Clean n.count c × (length set.old ≡ 16) }
    ensures { Joined (λ x. has (cube_of n.count c) x && ltb x (2 ^ n.count)) set.old set.new }
{
    for step in steps_of(walk_over(n, c)) {
        set[step.word] |= step.mask;
    }
}

impl PointSet {
    // The points of the cube join the set.
    pub fn join_cube(&mut self, n: Inputs, c: Cube)
        requires { Clean n.count c }
        ensures { Joined (λ x. has (cube_of n.count c) x && ltb x (2 ^ n.count)) self.old.words self.new.words }
    {
        cube_into(n, c, &mut self.words);
    }
}
