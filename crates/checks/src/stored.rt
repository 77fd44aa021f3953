// The sets of a problem: its privileged cubes as a context, and its required cubes, stored.
ghost use Rattle.std.specs.Prelude.{◌≡◌};
ghost use Rattle.hazard.specs.Sets.{required, privileged};
ghost use Rattle.cube.specs.Entry.{required_in};
ghost use Rattle.context.specs.Context.{table_in, privileged_of};
ghost use Rattle.sets.specs.Held.{Held};

use context::context::Context;
use kinds::problem::Problem;
use legality::make::context_of;
use sets::privileged::privileged_into;
use sets::required::required_into;
use sets::unvisited::unvisited;

// How many cubes a small room holds, required cubes or products: as many as one word has bits. Most problems need no larger room.
pub const FEW: usize = 64;

// How many words the columns of so many cubes take.
pub const FEW_COLUMNS: usize = 30 * ((FEW + 63) / 64);

// The OFF-set and the privileged cubes: at most one for each of 64 transitions.
pub fn context_for(problem: &Problem) -> Context
    ensures { (result.n ≡ problem.now.planes.n) × (result.off ≡ problem.now.planes.zeros) × (privileged_of result ≡ privileged problem.now.planes.n.count (table_in problem.now.planes) problem.now.transitions.list.now) }
{
    let mut privileged = [0u64; 64];
    let count = privileged_into(problem, &mut privileged);
    context_of(
        problem.planes.n,
        problem.planes.zeros,
        &privileged[0..count],
    )
}

// The required cubes, as many as there is room for; how many there are. Of the ones, those that no transition visits are single points.
pub fn store_required(problem: &Problem, out: &mut [u64]) -> usize
    ensures { Held problem.now.planes.n.count (required_in problem.now.planes.n.count) out.old out.new result (required problem.now.planes.n.count (table_in problem.now.planes) problem.now.transitions.list.now) }
{
    let singles = unvisited(&problem.planes, problem.transitions);
    required_into(problem, &singles, out)
}
