// Illegal intersections with privileged cubes, all tested at once by bit columns.
ghost use Rattle.std.specs.Prelude.{◌≡◌, option_map};
ghost use Rattle.hazard.specs.Search.{find};
ghost use Rattle.hazard.specs.Implicant.{illegal};
ghost use Rattle.cube.specs.Mask.{cube_of};
ghost use Rattle.cube.specs.Entry.{privileged_in};
ghost use Rattle.context.specs.Context.{privileged_words, privileged_of};
ghost use Rattle.legality.specs.Rows.{Rows};

use blocks::word::run_of;
use columns::whole::whole_word;
use context::context::Context;
use cube::mask::{Cube, digit_at};

// The set of the privileged cubes that are met, and whose start point is not contained.
fn illegal_rows(context: &Context, c: Cube) -> u64
    ensures { Rows (λ w. illegal (cube_of context.now.n.count c) (privileged_in context.now.n.count w)) (privileged_words context.now) result }
{
    let all = whole_word(context.count, 0);
    let mut met = all;
    let mut contained = all;
    for i in 0..context.n.count {
        // 64 rows at most: one word in each run.
        let at = run_of(1, i, digit_at(c, i));
        met &= context.meets[at];
        contained &= context.starts[at];
    }
    met ^ (met & contained)
}

// The word of the first privileged cube that the cube meets illegally: what growth and condition (c) ask.
pub fn first_illegal(context: &Context, c: Cube) -> Option<u64>
    ensures { option_map (privileged_in context.now.n.count) result ≡ find (illegal (cube_of context.now.n.count c)) (privileged_of context.now) }
{
    let rows = illegal_rows(context, c);
    if rows == 0 {
        return None;
    }
    let first = rows.trailing_zeros() as usize;
    Some(context.privileged[first])
}
