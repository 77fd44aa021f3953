// Moves between two sets of points, on the way from one point to another: which of a step's points have such a move. Where none of them is
// in the set, no move is looked at.
ghost use Rattle.std.specs.Prelude.{◌≡◌, ◌^◌, ◌<◌};
ghost use Rattle.cube.specs.PointSet.{in_set};
ghost use Rattle.points.specs.PointWord.{WordOf, masked};
ghost use Rattle.moves.specs.Turn.{turns, lasts};

use crate::further::further_word;
use cube::inputs::Inputs;
use points::set::PointSet;
use points::walk::Step;

// The step's points that are in the set `from`, and from which some move leads into the set `to`.
pub fn turning_points(n: Inputs, from: &PointSet, to: &PointSet, a: u16, b: u16, at: Step) -> u64
    requires { (a < 2 ^ n.count) × (b < 2 ^ n.count) × (at.word < 16) }
    ensures { WordOf (masked at.mask (turns n.count (in_set from.now.words) (in_set to.now.words) a b)) at.word result }
{
    let common = from.points_at(at);
    if common == 0 {
        return 0;
    }
    common & further_word(n, to, a, b, at.word)
}

// The step's points that are in the set, and from which no move leads into the set.
pub fn last_points(n: Inputs, set: &PointSet, s: u16, e: u16, at: Step) -> u64
    requires { (s < 2 ^ n.count) × (e < 2 ^ n.count) × (at.word < 16) }
    ensures { WordOf (masked at.mask (lasts n.count (in_set set.now.words) s e)) at.word result }
{
    set.points_at(at) ^ turning_points(n, set, set, s, e, at)
}
