// The network of required cubes that are stored, written into the buffer; or the first of them that blocks, and then nothing is written.
ghost use Rattle.std.specs.Prelude.{map, ℕ, ◌*◌, ◌/◌, ◌≤◌, length, get_or};
ghost use Rattle.hazard.specs.Limits.{most_required};
ghost use Rattle.cube.specs.Entry.{required_in, CleanWord};
ghost use Rattle.context.specs.Context.{off_in, privileged_of};
ghost use Rattle.selection.specs.Answer.{minimised_of};
ghost use Rattle.minimiser.specs.Answer.{Answered};

use crate::write::written;
use context::context::Context;
use hazard::limits::MOST_REQUIRED;
use refusal::refusal::Refusal;
use selection::select::select;

// How many words the columns of so many required cubes take.
pub const MOST_COLUMNS: usize = 30 * ((MOST_REQUIRED + 63) / 64);

// At most ROWS required cubes, in arrays of that size; COLUMNS words hold the columns of so many. An array is set to zero before it is used,
// and most problems are small: so there are two sizes.
pub fn network_sized<const ROWS: usize, const COLUMNS: usize>(
    context: &Context,
    required: &[u64],
    cover: &mut [u8],
) -> Result<usize, Refusal>
    requires room { (length required.now ≤ ROWS) × (length required.now * context.now.n.count ≤ length cover.old) }
    requires sized { (ROWS ≤ 64 * (COLUMNS / 30)) × (COLUMNS ≤ ROWS) × (ROWS ≤ most_required) }
    requires clean { (k : ℕ) → CleanWord context.now.n.count (get_or required.now k 0) }
    ensures { Answered context.now.n.count (off_in context.now) (privileged_of context.now) (map (required_in context.now.n.count) required.now) cover.old cover.new (minimised_of result) }
{
    let mut columns = [0u64; COLUMNS];
    let mut firsts = [0u16; ROWS];
    let mut words = [0u64; ROWS];
    let selected = select(context, required, &mut columns, &mut firsts, &mut words);
    written(context.n, selected, &mut words, cover)
}
