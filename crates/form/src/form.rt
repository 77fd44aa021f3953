// Checks 1 to 5 and 14, one run after another.
ghost use Rattle.std.specs.Prelude.{◌≡◌, IfOk};
ghost use Rattle.hazard.specs.Search.{first_of};
ghost use Rattle.refusal.specs.Answer.{refused_by};
ghost use Rattle.form.specs.Formed.{form_checks};

use crate::inputs::check_inputs;
use crate::list::list_checks;
use crate::table::table_checks;
use kinds::transitions::Transitions;
use refusal::refusal::Refusal;

// The form of the problem. Nothing is asked of what comes in: a number, bytes and numbers, as the callers of C and Rust hand them over. What goes
// out knows how many inputs there are.
pub fn form_checks<'a>(
    n: usize,
    table: &[u8],
    transitions: &'a [u16],
) -> Result<Transitions<'a>, Refusal>
    ensures refused { refused_by result ≡ first_of (form_checks n table.now transitions.now) }
    ensures taken { IfOk result (λ t. (t.n.count ≡ n) × (t.list.now ≡ transitions.now)) }
{
    let inputs = check_inputs(n)?;
    table_checks(inputs, table)?;
    list_checks(inputs, transitions)
}
