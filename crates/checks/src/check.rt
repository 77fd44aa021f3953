// The input rules, one run after another, and what they leave of a problem.
ghost use Rattle.std.specs.Prelude.{◌≡◌, IfOk};
ghost use Rattle.hazard.specs.Search.{first_of};
ghost use Rattle.hazard.specs.Refusal.{input_checks};
ghost use Rattle.context.specs.Context.{table_in};
ghost use Rattle.refusal.specs.Answer.{refused_by};

use crate::checked::Checked;
use crate::stored::{FEW, context_for, store_required};
use context::planes::Planes;
use form::form::form_checks;
use refusal::refusal::Refusal;
use rules::run::points_checks;

// The input rules. Nothing is asked of the problem that comes in; its context is made, and its required cubes are counted, and stored where
// they are few. Check 8 is not made: what the others let through never has so many.
pub fn check<'a>(n: usize, table: &[u8], transitions: &'a [u16]) -> Result<Checked<'a>, Refusal>
    ensures refused { refused_by result ≡ first_of (input_checks n table.now transitions.now) }
    ensures taken { IfOk result (λ c. (c.problem.planes.n.count ≡ n) × (table_in c.problem.planes ≡ table.now) × (c.problem.transitions.list.now ≡ transitions.now)) }
{
    let listed = form_checks(n, table, transitions)?;
    let problem = points_checks(Planes::of(listed.n, table), listed)?;
    let context = context_for(&problem);
    let mut few = [0u64; FEW];
    let count = store_required(&problem, &mut few);
    Ok(Checked {
        problem,
        context,
        few,
        count,
    })
}
