// The ends of a transition: a list holds two numbers for each.
ghost use Rattle.std.specs.Prelude.{◌≡◌, ◌<◌};
ghost use Rattle.hazard.specs.Transition.{start, end, count};

// A transition: the point where it starts, and the one where it ends.
#[derive(Clone, Copy)]
pub struct Transition {
    pub start: u16,
    pub end: u16,
}

// Transition t of a list.
pub fn transition_at(list: &[u16], t: usize) -> Transition
    requires { t < count list.now }
    ensures { (result.start ≡ start list.now t) × (result.end ≡ end list.now t) }
{
    Transition {
        start: list[2 * t],
        end: list[2 * t + 1],
    }
}
