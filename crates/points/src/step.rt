// What a step of a walk finds in a set of points.
ghost use Rattle.std.specs.Prelude.{◌<◌, length};
ghost use Rattle.cube.specs.PointSet.{in_set};
ghost use Rattle.points.specs.PointWord.{WordOf, masked};

use crate::walk::Step;

// The points of the step's word that are in the set, among the step's. The set may have any size; sixteen words make a `PointSet`.
pub fn set_points(set: &[u64], s: Step) -> u64
    requires { s.word < length set.now }
    ensures { WordOf (masked s.mask (in_set set.now)) s.word result }
{
    set[s.word] & s.mask
}
