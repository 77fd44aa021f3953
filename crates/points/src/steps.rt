// The steps of a walk, from its first word on.
ghost use Rattle.std.specs.Prelude.{◌≡◌, ◌+◌, ◌-◌, ◌<◌, T};
ghost use Rattle.hazard.specs.Cube.{has};
ghost use Rattle.cube.specs.Mask.{cube_of};
ghost use Rattle.std.specs.Iterator.{at_most};
ghost use Rattle.points.specs.Walk.{bits_at, Steps, UnderWay, Stepped};

use crate::walk::{Step, Walk};
use cube::inputs::Inputs;
use cube::point::next;

// The bits of a word that are points of the walk, if the word has points of the cube.
fn bits_at(k: Walk, w: usize) -> u64
    ensures { result ≡ bits_at k w }
{
    let h = k.old;
    if (w ^ h.value as usize) & (h.care as usize) == 0 {
        return k.mask ^ (k.mask & k.gone);
    }
    k.mask
}

// The first step.
pub fn first_step(k: Walk) -> Step
    ensures { Steps k 0 result }
{
    let w = k.words.value as usize;
    Step {
        word: w,
        mask: bits_at(k, w),
    }
}

// The step after s. Four inputs choose the word.
pub fn next_step(k: Walk, s: Step) -> Step
    requires { (s.word < 16) × T (has (cube_of 4 k.words) s.word) }
    ensures { Steps k (s.word + 1) result }
{
    let w = next(Inputs { count: 4 }, k.words, s.word);
    Step {
        word: w,
        mask: bits_at(k, w),
    }
}

// A walk under way, with the step that is next.
#[derive(Drop)]
pub struct Walking {
    walk: Walk,
    next: Step,
}

// The steps of a walk, one after another.
pub fn steps_of(k: Walk) -> Walking
    ensures { (result.walk ≡ k) × Steps k 0 result.next }
{
    Walking {
        walk: k,
        next: first_step(k),
    }
}

impl Iterator for Walking {
    type Item = Step;

    ghost can_next = { UnderWay };

    ghost next_gives = { Stepped };

    ghost remaining = { λ s. at_most (16 - s.next.word) };

    fn next(&mut self) -> Option<Step> {
        let step = self.next;
        if step.word < 16 {
            self.next = next_step(self.walk, step);
            return Some(step);
        }
        None
    }
}
