// The transitions of a list, checked one after another.
ghost use Rattle.std.specs.Prelude.{◌≤◌, ◌<◌, ℕ};
ghost use Rattle.hazard.specs.Transition.{count};
ghost use Rattle.kinds.specs.Each.{transition_in, FirstFailed};

use crate::transition::{Transition, transition_at};

// The failure of the first transition that fails a check, which gets its number and its ends.
pub fn check_each<E, F: Fn(u16, Transition) -> Result<(), E>>(
    list: &[u16],
    check: F,
) -> Result<(), E>
    requires few { count list.now ≤ 64 }
    requires each { (t : ℕ) → t < count list.now → F.pre check t (transition_in list.now t) }
    ensures { FirstFailed (λ t. F.post check t (transition_in list.now t)) (count list.now) result }
{
    for t in 0..list.len() / 2 {
        check(t as u16, transition_at(list, t))?;
    }
    Ok(())
}
