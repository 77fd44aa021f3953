// The three conditions, each with its first failure.
ghost use Rattle.std.specs.Prelude.{◌≡◌, map, [], ◌∷◌, ℕ, ◌*◌, ◌≤◌, length, get_or, option_map};
ghost use Rattle.hazard.specs.Limits.{most_products};
ghost use Rattle.hazard.specs.Search.{first_of, first_place};
ghost use Rattle.hazard.specs.Verdict as spec;
ghost use Rattle.cube.specs.Mask.{cube_of};
ghost use Rattle.cube.specs.Entry.{required_in, CleanWord, network_in};
ghost use Rattle.blocks.specs.Blocks.{stride};
ghost use Rattle.context.specs.Context.{off_in, privileged_of};
ghost use Rattle.rows.specs.Sets.{Fits};
ghost use Rattle.conditions.specs.Rows.{Containing};
ghost use Rattle.conditions.specs.Look.{met_in};
ghost use Rattle.conditions.specs.Answer.{verdict_of};

use crate::cover::covers;
use blocks::fill::blocks_into;
use columns::relation::Relation;
use context::context::Context;
use context::lowest::lowest_zero;
use cube::entry::{cube_in, point_in, transition_in};
use cube::inputs::Inputs;
use cube::mask::Cube;
use hazard::limits::MOST_PRODUCTS;
use legality::meeting::first_illegal;

// How a network is judged: passed, or its first fault. `Passed` is a case and not `None`: it is a verdict like the others, with a number of
// its own.
#[derive(Clone, Copy, PartialEq, Eq)]
pub enum Verdict {
    Passed,
    // (a): the product contains the point, which has 0
    HoldsZero { product: u16, point: u16 },
    // (c): the product intersects the transition's privileged cube and lacks its start point
    Intersects { product: u16, transition: u16 },
    // (b): the required cube of that transition and label lies in no product
    Uncovered { transition: u16, label: u16 },
}

// (c) up to product j, whose cube is c: the first failure before it stays, and else it has the first transition.
fn met_by(context: &Context, met: Option<(u16, u16)>, j: u16, c: Cube) -> Option<(u16, u16)>
    ensures { result ≡ first_of (met ∷ first_place (λ k. met_in context.now (cube_of context.now.n.count c)) j 1 ∷ []) }
{
    met.or_else(|| first_illegal(context, c).map(|w| (j, transition_in(w))))
}

// (a) by product and then point, else (c) by product and then transition. Each product is looked at once: a zero ends the search, and the
// first illegal intersection waits for its end. That the words are clean is a clause: they come as a lent slice, which has nothing else in it.
fn product_fault(context: &Context, products: &[u64]) -> Verdict
    requires few { length products.now ≤ most_products }
    requires clean { (i : ℕ) → CleanWord context.now.n.count (get_or products.now i 0) }
    ensures { verdict_of result
        ≡ spec.first_fault (spec.fault_a context.now.n.count (off_in context.now) (network_in context.now.n.count products.now))
        (spec.fault_c (privileged_of context.now) (network_in context.now.n.count products.now)) None }
{
    let mut met = None;
    for (j, w) in products.iter().enumerate() {
        let c = cube_in(*w);
        if let Some(z) = lowest_zero(&context.off, context.n, c) {
            return Verdict::HoldsZero {
                product: j as u16,
                point: z,
            };
        }
        met = met_by(context, met, j as u16, c);
    }
    match met {
        Some((product, transition)) => Verdict::Intersects {
            product,
            transition,
        },
        None => Verdict::Passed,
    }
}

// (b) in the order of required cubes: a loop and not `find`, since each turn writes into the lent room. The products are the rows of the
// columns; `rows` is room for a set of them.
fn fault_b(
    n: Inputs,
    required: &[u64],
    products: &[u64],
    columns: &[u64],
    rows: &mut [u64],
) -> Option<u64>
    requires fits { Fits columns.now rows.old × (length products.now ≤ 64 * length rows.old) }
    requires containing { Containing n.count products.now columns.now }
    ensures { option_map (required_in n.count) result ≡ spec.fault_b (map (required_in n.count) required.now) (network_in n.count products.now) }
{
    for w in required {
        if !covers(n, products, columns, rows, *w) {
            return Some(*w);
        }
    }
    None
}

// The first fault: (a), then (c), then (b). `columns` is room for those of the products.
pub fn first_fault(
    context: &Context,
    required: &[u64],
    products: &[u64],
    columns: &mut [u64],
) -> Verdict
    requires few { (length products.now ≤ most_products) × (length products.now ≤ 64 * stride columns.old) }
    requires clean { (i : ℕ) → CleanWord context.now.n.count (get_or products.now i 0) }
    ensures { verdict_of result
        ≡ spec.first_fault (spec.fault_a context.now.n.count (off_in context.now) (network_in context.now.n.count products.now))
        (spec.fault_c (privileged_of context.now) (network_in context.now.n.count products.now))
        (spec.fault_b (map (required_in context.now.n.count) required.now) (network_in context.now.n.count products.now)) }
{
    let fault = product_fault(context, products);
    let Verdict::Passed = fault else {
        return fault;
    };
    blocks_into(Relation::Contains, context.n, products, columns);
    let mut rows = [0u64; (MOST_PRODUCTS + 63) / 64];
    // Rounded up by hand, as in the array's length, where no call may stand.
    let b = (products.len() + 63) / 64;
    let Some(w) = fault_b(context.n, required, products, columns, &mut rows[0..b]) else {
        return Verdict::Passed;
    };
    Verdict::Uncovered {
        transition: transition_in(w),
        label: point_in(w),
    }
}
