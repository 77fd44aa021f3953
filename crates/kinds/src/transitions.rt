// Lists of transitions.
ghost use Rattle.std.specs.Prelude.{◌≡◌, ◌<◌};
ghost use Rattle.hazard.specs.Transition as spec;
ghost use Rattle.kinds.specs.Listed.{Listed};

use crate::transition::{Transition, transition_at};
use cube::inputs::Inputs;

// At most 64 transitions between points of n inputs, none of which moves more inputs than the limit.
#[derive(Clone, Copy)]
pub struct Transitions<'a> {
    pub n: Inputs,
    pub list: &'a [u16],
    ghost listed: { Listed n.count list.now },
}

impl Transitions<'_> {
    // How many there are.
    pub fn count(self) -> usize
        ensures { result ≡ spec.count self.entry.list.now }
    {
        self.list.len() / 2
    }

    // Transition t. They are read by number and not by an iterator: the number is what a cube is stored with and what a refusal names.
    pub fn at(self, t: usize) -> Transition
        requires { t < spec.count self.list.now }
        ensures { (result.start ≡ spec.start self.entry.list.now t) × (result.end ≡ spec.end self.entry.list.now t) }
    {
        transition_at(self.list, t)
    }
}
