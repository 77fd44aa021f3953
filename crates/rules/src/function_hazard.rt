// Check 7, by the planes.
ghost use Rattle.std.specs.Prelude.{◌≡◌, ◌&&◌, ◌<◌, ◌^◌};
ghost use Rattle.hazard.specs.Search.{first};
ghost use Rattle.hazard.specs.Cube.{has, span};
ghost use Rattle.hazard.specs.Refusal.{rules_check};
ghost use Rattle.cube.specs.PointSet.{in_set};
ghost use Rattle.moves.specs.Turn.{turns};
ghost use Rattle.context.specs.Context.{table_in};
ghost use Rattle.kinds.specs.Codes.{kind_is};
ghost use Rattle.refusal.specs.Answer.{refused_by};
ghost use Rattle.rules.specs.Fault.{hazard_by};

use context::planes::Planes;
use cube::inputs::Inputs;
use cube::mask::span_of;
use kinds::each::check_each;
use kinds::kind::{Kind, kind_of};
use kinds::problem::Problem;
use moves::turn::turning_points;
use points::over::walk_over;
use points::set::PointSet;
use points::steps::steps_of;
use points::word::lowest_point;
use refusal::refusal::Refusal;

// The lowest point of [A,B] in the set `from` with a move further into the set `to`. `PointSet::lowest_on` looks likewise: one function for both
// would take what a step is asked as a closure, with a contract longer than this loop.
fn lowest_turning(n: Inputs, from: &PointSet, to: &PointSet, a: u16, b: u16) -> Option<u16>
    requires { (a < 2 ^ n.count) × (b < 2 ^ n.count) }
    ensures { result ≡ first (λ x. has (span n.count a b) x && turns n.count (in_set from.now.words) (in_set to.now.words) a b x) 0 (2 ^ n.count) }
{
    for step in steps_of(walk_over(n, span_of(n, a, b))) {
        let turning = turning_points(n, from, to, a, b, step);
        if turning != 0 {
            return Some(lowest_point(step.word, turning));
        }
    }
    None
}

// The lowest point of [A,B] that shows a function hazard for the kind: the wrong value (static), or the point before the wrong move
// (dynamic). A match on the kind: each has a rule of its own.
fn lowest_hazard(planes: &Planes, k: Kind, a: u16, b: u16) -> Option<u16>
    requires { (a < 2 ^ planes.now.n.count) × (b < 2 ^ planes.now.n.count) }
    ensures { result ≡ hazard_by planes.now.n.count (table_in planes.now) (kind_is k) a b }
{
    let n = planes.n;
    match k {
        Kind::Low => planes.ones.lowest_in(n, span_of(n, a, b)),
        Kind::Rise => lowest_turning(n, &planes.ones, &planes.zeros, a, b),
        Kind::Fall => lowest_turning(n, &planes.zeros, &planes.ones, a, b),
        Kind::High => planes.zeros.lowest_in(n, span_of(n, a, b)),
    }
}

// 7: the rule of the kind is broken; the first such transition, the lowest point.
pub fn check_rules(problem: &Problem) -> Result<(), Refusal>
    ensures { refused_by result ≡ rules_check problem.now.planes.n.count (table_in problem.now.planes) problem.now.transitions.list.now }
{
    let planes = &problem.planes;
    check_each(problem.transitions.list, |transition, ends| {
        let kind = kind_of(&planes.ones, ends);
        match lowest_hazard(planes, kind, ends.start, ends.end) {
            Some(point) => Err(Refusal::FunctionHazard { transition, point }),
            None => Ok(()),
        }
    })
}
