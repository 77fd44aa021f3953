// The minimiser's call.
ghost use Rattle.std.specs.Prelude.{◌*◌, ◌≤◌, length};
ghost use Rattle.hazard.specs.Minimal.{Promise};
ghost use Rattle.context.specs.Context.{table_in};
ghost use Rattle.selection.specs.Answer.{minimised_of};
ghost use Rattle.minimiser.specs.Answer.{AnsweredFor};

use crate::network::{MOST_COLUMNS, network_sized};
use checks::check::check;
use checks::checked::Checked;
use checks::stored::{FEW, FEW_COLUMNS, store_required};
use hazard::limits::MOST_REQUIRED;
use refusal::refusal::Refusal;

// The network of a problem with so many required cubes that they are stored anew, in an array that has room for all.
// The verifier has a function like it: one for both would take what is done with the words as a closure, with a contract longer than these lines.
fn network_large(checked: &Checked, cover: &mut [u8]) -> Result<usize, Refusal>
    requires { checked.now.problem.planes.n.count * checked.now.count ≤ length cover.old }
    ensures { AnsweredFor checked.now.problem.planes checked.now.problem.transitions.list.now cover.old cover.new (minimised_of result) }
{
    let mut required = [0u64; MOST_REQUIRED];
    let count = store_required(&checked.problem, &mut required);
    network_sized::<MOST_REQUIRED, MOST_COLUMNS>(&checked.context, &required[0..count], cover)
}

// Check 9, and the network, of a problem that the input rules accept.
fn within_room(checked: &Checked, cover: &mut [u8]) -> Result<usize, Refusal>
    ensures { Promise checked.now.problem.planes.n.count (table_in checked.now.problem.planes) checked.now.problem.transitions.list.now cover.old cover.new (minimised_of result) }
{
    if cover.len() < checked.problem.planes.n.count * checked.count {
        return Err(Refusal::ShortBuffer);
    }
    if checked.few.len() < checked.count {
        return network_large(checked, cover);
    }
    network_sized::<FEW, FEW_COLUMNS>(&checked.context, &checked.few[0..checked.count], cover)
}

// A hazard-free network for the table and the transitions is written into the buffer, and its products are counted; or a refusal, and
// then the buffer is as it was.
pub fn minimise(
    n: usize,
    table: &[u8],
    transitions: &[u16],
    cover: &mut [u8],
) -> Result<usize, Refusal>
    ensures { Promise n table.now transitions.now cover.old cover.new (minimised_of result) }
{
    let checked = check(n, table, transitions)?;
    within_room(&checked, cover)
}
