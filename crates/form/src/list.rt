// Checks 4, 5 and 14: the list of transitions by itself.
ghost use Rattle.std.specs.Prelude.{◌≡◌, ◌||◌, ◌≤◌, ◌^◌, leb, IfOk};
ghost use Rattle.hazard.specs.Search.{first_of};
ghost use Rattle.hazard.specs.Transition.{count};
ghost use Rattle.hazard.specs.Refusal.{list_check, ends_check, list_checks};
ghost use Rattle.refusal.specs.Answer.{refused_by};

use crate::burst::check_bursts;
use cube::inputs::Inputs;
use kinds::each::check_each;
use kinds::transition::Transition;
use kinds::transitions::Transitions;
use refusal::refusal::Refusal;

// 4: the list is odd, or above 64 transitions.
pub fn check_list(list: &[u16]) -> Result<(), Refusal>
    ensures { refused_by result ≡ list_check list.now }
{
    let size = list.len();
    if size % 2 == 1 || 64 < size / 2 {
        return Err(Refusal::ListLength);
    }
    Ok(())
}

// An end is no point.
fn is_outside(n: Inputs, ends: Transition) -> bool
    ensures { result ≡ (leb (2 ^ n.count) ends.start || leb (2 ^ n.count) ends.end) }
{
    let points = 1u16 << n.count;
    points <= ends.start || points <= ends.end
}

// 5: an end that is no point; the first such transition. That the list is short is a clause: check 4 has just said so, and the list is one of
// `Transitions` only when check 14 has passed too.
pub fn check_ends(n: Inputs, list: &[u16]) -> Result<(), Refusal>
    requires { count list.now ≤ 64 }
    ensures { refused_by result ≡ ends_check n.count list.now }
{
    check_each(list, |transition, ends| {
        if is_outside(n, ends) {
            return Err(Refusal::NoPoint { transition });
        }
        Ok(())
    })
}

// All three, and then the list is one of transitions of n inputs.
pub fn list_checks<'a>(n: Inputs, list: &'a [u16]) -> Result<Transitions<'a>, Refusal>
    ensures refused { refused_by result ≡ first_of (list_checks n.count list.now) }
    ensures taken { IfOk result (λ t. (t.n ≡ n) × (t.list.now ≡ list.now)) }
{
    check_list(list)?;
    check_ends(n, list)?;
    check_bursts(n, list)?;
    Ok(Transitions { n, list })
}
