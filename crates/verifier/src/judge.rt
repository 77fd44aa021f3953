// The first fault of a network that is not refused, for sets that are stored.
ghost use Rattle.std.specs.Prelude.{◌≡◌, map, ◌*◌, ◌/◌, ◌≤◌, length};
ghost use Rattle.hazard.specs.Limits.{most_products};
ghost use Rattle.blocks.specs.Blocks.{stride};
ghost use Rattle.conditions.specs.Answer.{verdict_of};
ghost use Rattle.verifier.specs.Judge.{claim_fault};

use crate::claim::Claim;
use checks::stored::{FEW, FEW_COLUMNS};
use conditions::fault::{Verdict, first_fault};
use hazard::limits::MOST_PRODUCTS;
use network_bytes::read::read_network;

// How many words the columns of so many products take.
const MOST_COLUMNS: usize = 30 * ((MOST_PRODUCTS + 63) / 64);

// The network's products are read as words into the lent room, and the conditions are tried on them.
fn judge_with(claim: Claim, products: &mut [u64], columns: &mut [u64]) -> Verdict
    requires { (length claim.network.bytes.now / claim.network.n.count ≤ length products.old) × (length claim.network.bytes.now / claim.network.n.count ≤ 64 * stride columns.old) }
    ensures { verdict_of result ≡ claim_fault claim.entry }
{
    let count = read_network(claim.network, products);
    first_fault(claim.context, claim.required, &products[0..count], columns)
}

// At most ROWS products, in an array of that size; COLUMNS words hold the columns of so many. An array is set to zero before it is used, and
// most networks are small: so there are two sizes.
fn judge_sized<const ROWS: usize, const COLUMNS: usize>(claim: Claim) -> Verdict
    requires { (length claim.network.bytes.now / claim.network.n.count ≤ ROWS) × (ROWS ≤ 64 * (COLUMNS / 30)) × (COLUMNS ≤ ROWS) × (ROWS ≤ most_products) }
    ensures { verdict_of result ≡ claim_fault claim.entry }
{
    let mut products = [0u64; ROWS];
    let mut columns = [0u64; COLUMNS];
    judge_with(claim, &mut products, &mut columns)
}

// The first fault of a network, or none.
pub fn judge(claim: Claim) -> Verdict
    ensures { verdict_of result ≡ claim_fault claim.entry }
{
    if claim.network.count() <= FEW {
        return judge_sized::<FEW, FEW_COLUMNS>(claim);
    }
    judge_sized::<MOST_PRODUCTS, MOST_COLUMNS>(claim)
}
