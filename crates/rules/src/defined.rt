// Check 6, by the set of the don't cares.
ghost use Rattle.std.specs.Prelude.{◌≡◌};
ghost use Rattle.hazard.specs.Refusal.{defined_check};
ghost use Rattle.context.specs.Context.{table_in};
ghost use Rattle.refusal.specs.Answer.{refused_by};

use context::planes::Planes;
use context::unknown::dont_cares;
use cube::mask::span_of;
use kinds::each::check_each;
use kinds::transitions::Transitions;
use refusal::refusal::Refusal;

// 6: a don't care in some [A,B]; the first such transition, the lowest point.
pub fn check_defined(planes: &Planes, transitions: Transitions) -> Result<(), Refusal>
    requires { planes.now.n.count ≡ transitions.n.count }
    ensures { refused_by result ≡ defined_check planes.now.n.count (table_in planes.now) transitions.entry.list.now }
{
    let n = planes.n;
    let twos = dont_cares(&planes.zeros, &planes.ones);
    check_each(transitions.list, |transition, ends| {
        match twos.lowest_in(n, span_of(n, ends.start, ends.end)) {
            Some(point) => Err(Refusal::DontCare { transition, point }),
            None => Ok(()),
        }
    })
}
