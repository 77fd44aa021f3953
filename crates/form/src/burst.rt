// Check 14: how many inputs a transition moves.
ghost use Rattle.std.specs.Prelude.{◌≡◌, ◌≤◌, ltb};
ghost use Rattle.hazard.specs.Limits.{most_moving};
ghost use Rattle.hazard.specs.Cube.{distance};
ghost use Rattle.hazard.specs.Transition.{count};
ghost use Rattle.hazard.specs.Refusal.{bursts_check};
ghost use Rattle.refusal.specs.Answer.{refused_by};

use cube::inputs::Inputs;
use hazard::limits::MOST_MOVING;
use kinds::each::check_each;
use kinds::transition::Transition;
use refusal::refusal::Refusal;

// More inputs move than the limit. Only n inputs are counted.
fn is_wide(n: Inputs, ends: Transition) -> bool
    ensures { result ≡ ltb most_moving (distance n.count ends.start ends.end) }
{
    let moving = (ends.start ^ ends.end) % (1u16 << n.count);
    MOST_MOVING < u16::count_ones(moving)
}

// 14: more inputs move than the limit; the first such transition.
pub fn check_bursts(n: Inputs, list: &[u16]) -> Result<(), Refusal>
    requires { count list.now ≤ 64 }
    ensures { refused_by result ≡ bursts_check n.count list.now }
{
    check_each(list, |transition, ends| {
        if is_wide(n, ends) {
            return Err(Refusal::WideBurst { transition });
        }
        Ok(())
    })
}
