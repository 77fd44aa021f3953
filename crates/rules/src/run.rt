// Checks 6 and 7, one after the other.
ghost use Rattle.std.specs.Prelude.{◌≡◌, IfOk};
ghost use Rattle.hazard.specs.Search.{first_of};
ghost use Rattle.hazard.specs.Refusal.{points_checks};
ghost use Rattle.context.specs.Context.{table_in};
ghost use Rattle.refusal.specs.Answer.{refused_by};

use crate::defined::check_defined;
use crate::function_hazard::check_rules;
use context::planes::Planes;
use kinds::problem::Problem;
use kinds::transitions::Transitions;
use refusal::refusal::Refusal;

// The table under the transitions, by its planes. Where check 6 finds nothing, every end has a value, and check 7 can tell the kinds.
// Planes and list each say how many inputs there are. Check 6 makes one value of the two; until then a clause says that they agree.
pub fn points_checks<'a>(
    planes: Planes,
    transitions: Transitions<'a>,
) -> Result<Problem<'a>, Refusal>
    requires { planes.n.count ≡ transitions.n.count }
    ensures refused { refused_by result ≡ first_of (points_checks planes.n.count (table_in planes) transitions.entry.list.now) }
    ensures taken { IfOk result (λ p. (p.planes ≡ planes) × (p.transitions.list.now ≡ transitions.entry.list.now)) }
{
    check_defined(&planes, transitions)?;
    let problem = Problem {
        planes,
        transitions,
    };
    check_rules(&problem)?;
    Ok(problem)
}
