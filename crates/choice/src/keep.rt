// The products that are kept: an irredundant part of those chosen.
ghost use Rattle.std.specs.Prelude.{◌≡◌, ℕ, ◌*◌, ◌≤◌, ◌<◌, length, get_or};
ghost use Rattle.hazard.specs.Limits.{most_required};
ghost use Rattle.hazard.specs.Search.{found, first};
ghost use Rattle.blocks.specs.Blocks.{stride};
ghost use Rattle.flags.specs.Rows.{Inside};
ghost use Rattle.choice.specs.Keep.{needed_in, Lowest, Noted, Kept};

use cube::entry::cube_in;
use cube::inputs::Inputs;
use flags::flag::flag_product;
use hazard::limits::MOST_REQUIRED;
use rows::whole::whole_into;

// Some required cube needs product j: it has it for its first, and lies in no product kept so far.
fn needed_by_any(firsts: &[u16], flags: &[bool], j: u16) -> bool
    requires { length firsts.now ≤ length flags.now }
    ensures { result ≡ found (first (needed_in firsts.now flags.now j) 0 (length firsts.now)) }
{
    firsts
        .iter()
        .zip(flags)
        .any(|(first, flag)| *first == j && !*flag)
}

// Some required cube needs product j. The lowest that has it for its first mostly does, so it is asked before the others.
fn needed(firsts: &[u16], flags: &[bool], j: u16, lowest: u16) -> bool
    requires { length firsts.now ≤ length flags.now }
    ensures { result ≡ found (first (needed_in firsts.now flags.now j) 0 (length firsts.now)) }
{
    let i = lowest as usize;
    (i < firsts.len() && firsts[i] == j && !flags[i]) || needed_by_any(firsts, flags, j)
}

// For each product the lowest required cube that has it for its first.
fn lowest_into(firsts: &[u16], lowest: &mut [u16])
    requires { (length firsts.now ≤ most_required) × (length lowest.old ≡ most_required) × ((i : ℕ) → i < length firsts.now → get_or firsts.now i 0 < most_required) }
    ensures { Lowest firsts.now lowest.new }
{
    for (i, first) in firsts.iter().enumerate().rev() {
        lowest[*first as usize] = i as u16;
    }
}

// Going backwards, a product is kept where some required cube needs it. Those kept are moved to the end, in their order; the place of the
// first of them. The flags tell which required cubes lie in a kept product; the first b words of `uncovered` are the set of the others, and
// `taken` is room for a set. They are no struct, because a turn lends all three at once, and no proof covers that of a struct's fields.
// `columns` has the required cubes for its rows.
pub fn irredundant_from(
    n: Inputs,
    required: &[u64],
    columns: &[u64],
    firsts: &[u16],
    products: &mut [u64],
) -> usize
    requires { Noted n.count required.now firsts.now products.old × Inside n.count required.now columns.now × (length required.now ≤ 64 * stride columns.now) }
    ensures { Kept n.count required.now products.old products.new result }
{
    // Rounded up by hand, as in the arrays' lengths, where no call may stand.
    let b = (required.len() + 63) / 64;
    let mut flags = [false; MOST_REQUIRED];
    let mut lowest = [0u16; MOST_REQUIRED];
    let mut uncovered = [0u64; (MOST_REQUIRED + 63) / 64];
    let mut taken = [0u64; (MOST_REQUIRED + 63) / 64];
    lowest_into(firsts, &mut lowest);
    whole_into(required.len(), &mut uncovered[0..b]);
    let mut kept = products.len();
    for j in (0..products.len()).rev() {
        let p = products[j];
        if needed(firsts, &flags, j as u16, lowest[j]) {
            kept -= 1;
            products[kept] = p;
            flag_product(
                n,
                columns,
                cube_in(p),
                &mut uncovered[0..b],
                &mut taken[0..b],
                &mut flags,
            );
        }
    }
    kept
}
