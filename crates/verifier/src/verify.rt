// The verifier's call.
ghost use Rattle.std.specs.Prelude.{◌≡◌, length};
ghost use Rattle.hazard.specs.Verdict.{products, fault, Verified};
ghost use Rattle.hazard.specs.Shown.{Shown};
ghost use Rattle.context.specs.Context.{table_in};
ghost use Rattle.conditions.specs.Answer.{verdict_of};
ghost use Rattle.witness.specs.Finding.{found_of, counted_of};

use crate::claim::Claim;
use crate::judge::judge;
use checks::check::check;
use checks::checked::Checked;
use checks::stored::store_required;
use conditions::fault::Verdict;
use hazard::limits::MOST_REQUIRED;
use network_bytes::check::own_checks;
use network_bytes::network::NetworkBytes;
use refusal::refusal::Refusal;
use witness::finding::Finding;
use witness::run::show;

// The verdict for a problem with so many required cubes that they are stored anew, in an array that has room for all.
// The minimiser has a function like it: one for both would take what is done with the words as a closure, with a contract longer than these lines.
fn judge_large(checked: &Checked, network: NetworkBytes) -> Verdict
    requires { network.n ≡ checked.now.problem.planes.n }
    ensures { verdict_of result ≡ fault network.entry.n.count (table_in checked.now.problem.planes) checked.now.problem.transitions.list.now (products network.entry.n.count network.entry.bytes.now) }
{
    let mut required = [0u64; MOST_REQUIRED];
    let count = store_required(&checked.problem, &mut required);
    judge(Claim {
        context: &checked.context,
        required: &required[0..count],
        network,
    })
}

// The verdict on a network that is not refused, for a problem that the input rules accept. No run is written for it here.
fn judge_network(checked: &Checked, network: NetworkBytes) -> Verdict
    requires { network.n ≡ checked.now.problem.planes.n }
    ensures { verdict_of result ≡ fault network.entry.n.count (table_in checked.now.problem.planes) checked.now.problem.transitions.list.now (products network.entry.n.count network.entry.bytes.now) }
{
    if checked.few.len() < checked.count {
        return judge_large(checked, network);
    }
    judge(Claim {
        context: &checked.context,
        required: &checked.few[0..checked.count],
        network,
    })
}

// The verifier's own checks, and the verdict, of a network for a problem that the input rules accept; then the run that shows the verdict.
fn verify_network(checked: &Checked, network: &[u8], wires: &mut [u16]) -> Result<Finding, Refusal>
    ensures verified { Verified checked.now.problem.planes.n.count (table_in checked.now.problem.planes) checked.now.problem.transitions.list.now network.now (length wires.old) (found_of result) }
    ensures shown { Shown (table_in checked.now.problem.planes) checked.now.problem.transitions.list.now (products checked.now.problem.planes.n.count network.now) (found_of result) wires.old wires.new (counted_of result) }
{
    let network = own_checks(checked.problem.planes.n, network, wires.len())?;
    let verdict = judge_network(checked, network);
    let wires = show(&checked.problem, network, verdict, wires);
    Ok(Finding { verdict, wires })
}

// Whether the network is hazard-free for the table and the transitions: a refusal, or passed, or the first fault. The run that shows the
// fault, if one does, is written into the buffer, and its wires are counted.
pub fn verify(
    n: usize,
    table: &[u8],
    transitions: &[u16],
    network: &[u8],
    wires: &mut [u16],
) -> Result<Finding, Refusal>
    ensures verified { Verified n table.now transitions.now network.now (length wires.old) (found_of result) }
    ensures shown { Shown table.now transitions.now (products n network.now) (found_of result) wires.old wires.new (counted_of result) }
{
    let checked = check(n, table, transitions)?;
    verify_network(&checked, network, wires)
}
