// Supercube-dhf: a cube grown until it is legal or blocked.
ghost use Rattle.std.specs.Prelude.{◌≡◌, None};
ghost use Rattle.hazard.specs.Implicant.{lowest_zero};
ghost use Rattle.cube.specs.Mask.{cube_of, Clean};
ghost use Rattle.context.specs.Context.{off_in};
ghost use Rattle.expand.specs.Answer.{Grows};

use context::context::Context;
use context::lowest::{lowest_added, lowest_zero};
use cube::entry::point_in;
use cube::mask::{Cube, joined};
use legality::meeting::first_illegal;

// How growth ends: legal, with the cube and the steps taken, or blocked, with the lowest zero and the steps taken. No `Result`: both ends are
// answers, and both have steps.
#[derive(Clone, Copy)]
pub enum Grown {
    Legal(Cube, u16),
    Blocked(u16, u16),
}

// The growth of a cube without a zero. Where it intersects privileged cubes illegally, it takes in the start point of the first of them, again and
// again, until it intersects none so, or the points that a step added have a zero. Each step frees an input, so n steps are enough; how it ends is
// the answer.
pub(crate) fn grow_on(context: &Context, c: Cube) -> Grown
    requires clean { Clean context.now.n.count c }
    requires zeros { lowest_zero context.now.n.count (off_in context.now) (cube_of context.now.n.count c) ≡ None }
    ensures { Grows context.now (cube_of context.now.n.count c) result }
{
    let mut cube = c;
    let mut steps: u16 = 0;
    // Not a `for`: the answer carries the steps after the loop too, where they would have to be written again, as n.
    while (steps as usize) < context.n.count {
        let Some(w) = first_illegal(context, cube) else {
            return Grown::Legal(cube, steps);
        };
        let wider = joined(cube, point_in(w));
        steps += 1;
        if let Some(z) = lowest_added(&context.off, context.n, cube, wider) {
            return Grown::Blocked(z, steps);
        }
        cube = wider;
    }
    Grown::Legal(cube, steps)
}

// The growth of a cube. It is read whole here, once.
pub fn grow(context: &Context, c: Cube) -> Grown
    requires { Clean context.now.n.count c }
    ensures { Grows context.now (cube_of context.now.n.count c) result }
{
    if let Some(z) = lowest_zero(&context.off, context.n, c) {
        return Grown::Blocked(z, 0);
    }
    grow_on(context, c)
}
