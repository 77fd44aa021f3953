// What the input rules leave of a problem.
ghost use Rattle.hazard.specs.Refusal.{Accepted};
ghost use Rattle.context.specs.Context.{table_in};
ghost use Rattle.checks.specs.Sets.{SetsOf};

use crate::stored::FEW;
use context::context::Context;
use kinds::problem::Problem;

// A problem that the input rules let through; its context, and how many required cubes it has, with as many of them as there is room for: an
// array and a count, since no heap is used.
#[derive(Clone, Copy)]
pub struct Checked<'a> {
    pub problem: Problem<'a>,
    pub context: Context,
    pub few: [u64; FEW],
    pub count: usize,
    ghost accepted: { Accepted problem.planes.n.count (table_in problem.planes) problem.transitions.list.now },
    ghost sets: { SetsOf problem.planes problem.transitions.list.now context few count },
}
