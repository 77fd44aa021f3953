// From a context and its required cubes to the words of a network.
ghost use Rattle.std.specs.Prelude.{map, ℕ, ◌*◌, ◌≤◌, length, get_or};
ghost use Rattle.hazard.specs.Limits.{most_required};
ghost use Rattle.cube.specs.Entry.{required_in, CleanWord};
ghost use Rattle.context.specs.Context.{off_in, privileged_of};
ghost use Rattle.blocks.specs.Blocks.{stride};
ghost use Rattle.selection.specs.Select.{Selects};

use crate::covering::Covering;
use blocks::fill::blocks_into;
use choice::keep::irredundant_from;
use columns::relation::Relation;
use context::context::Context;
use refusal::refusal::Refusal;

// Where the kept words stand among the products: from the place `start` on, and before the place `end`.
#[derive(Clone, Copy)]
pub struct Places {
    pub start: usize,
    pub end: usize,
}

// Products are chosen forwards, and those that can be dropped are dropped backwards; or a required cube blocks. `columns` is room for the
// columns of the required cubes, `firsts` for the place of each one's first product.
pub fn select(
    context: &Context,
    required: &[u64],
    columns: &mut [u64],
    firsts: &mut [u16],
    products: &mut [u64],
) -> Result<Places, Refusal>
    requires ready { (length required.now ≤ most_required) × (length required.now ≤ 64 * stride columns.old) × (length required.now ≤ length firsts.old) × (length required.now ≤ length products.old) }
    requires clean { (k : ℕ) → CleanWord context.now.n.count (get_or required.now k 0) }
    ensures { Selects context.now.n.count (off_in context.now) (privileged_of context.now) (map (required_in context.now.n.count) required.now) products.new result }
{
    let count = required.len();
    blocks_into(Relation::Inside, context.n, required, columns);
    let covering = Covering {
        context,
        required,
        columns,
    };
    let end = covering.choose(&mut firsts[0..count], products)?;
    let start = irredundant_from(
        context.n,
        required,
        columns,
        &firsts[0..count],
        &mut products[0..end],
    );
    Ok(Places { start, end })
}
