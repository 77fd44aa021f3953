// The points without a value.
ghost use Rattle.context.specs.Context.{DontCares};

use points::set::PointSet;

// The don't cares: the points in neither plane.
pub fn dont_cares(zeros: &PointSet, ones: &PointSet) -> PointSet
    ensures { DontCares zeros.now.words ones.now.words result.words }
{
    let all = PointSet {
        words: [u64::MAX; 16],
    };
    all.without(zeros).without(ones)
}
