// Expansion of a dhf-implicant to a dhf-prime.
ghost use Rattle.std.specs.Prelude.{◌≡◌, ℕ, ◌<◌, None};
ghost use Rattle.hazard.specs.Implicant.{lowest_zero};
ghost use Rattle.hazard.specs.Expansion as spec;
ghost use Rattle.cube.specs.Mask.{cube_of, Clean, Stands};
ghost use Rattle.context.specs.Context.{off_in, privileged_of};
ghost use Rattle.expand.specs.Answer.{grown_of, LegalClean};

use crate::growth::{Grown, grow, grow_on};
use context::context::Context;
use context::lowest::lowest_raised;
use cube::mask::{Cube, raised, supercube_of};
use cube::point::bit_of;

impl Grown {
    // The grown cube where growth ended legal, else the cube that was there before.
    fn cube_or(self, c: Cube) -> Cube
        ensures { (n : ℕ) → Clean n c → LegalClean n self → Stands n result (spec.grown_or (cube_of n c) (grown_of n self)) }
    {
        match self {
            Grown::Legal(d, _) => d,
            Grown::Blocked(_, _) => c,
        }
    }
}

// The literal of input i raised, and the cube grown, where there is one and that ends legal. The cube has no zero, so that only the points that
// raising adds are read.
fn raise(context: &Context, c: Cube, i: usize) -> Cube
    requires clean { Clean context.now.n.count c × (i < context.now.n.count) }
    requires zeros { lowest_zero context.now.n.count (off_in context.now) (cube_of context.now.n.count c) ≡ None }
    ensures { Stands context.now.n.count result (spec.raise context.now.n.count (off_in context.now) (privileged_of context.now) (cube_of context.now.n.count c) i) }
{
    if bit_of(c.care, i) == 0 {
        return c;
    }
    if lowest_raised(&context.off, context.n, c, i).is_some() {
        return c;
    }
    grow_on(context, raised(c, i)).cube_or(c)
}

// A cube without a zero, with its literals raised, one after the other.
pub fn expanded(context: &Context, c: Cube) -> Cube
    requires clean { Clean context.now.n.count c }
    requires zeros { lowest_zero context.now.n.count (off_in context.now) (cube_of context.now.n.count c) ≡ None }
    ensures { Stands context.now.n.count result (spec.expand context.now.n.count (off_in context.now) (privileged_of context.now) (cube_of context.now.n.count c)) }
{
    let mut p = c;
    for i in 0..context.n.count {
        p = raise(context, p, i);
    }
    p
}

// The cube grown over a further one, where that ends legal.
pub fn absorbed(context: &Context, c: Cube, d: Cube) -> Cube
    requires clean { Clean context.now.n.count c }
    ensures { Stands context.now.n.count result (spec.absorb context.now.n.count (off_in context.now) (privileged_of context.now) (cube_of context.now.n.count c) (cube_of context.now.n.count d)) }
{
    grow(context, supercube_of(c, d)).cube_or(c)
}
