// Checks 11 and 12, of the network by itself, and 15, of the buffer for its wires.
ghost use Rattle.std.specs.Prelude.{◌≡◌, not, ◌/◌, ◌≤◌, length, IfOk};
ghost use Rattle.hazard.specs.Limits.{most_products};
ghost use Rattle.hazard.specs.Search.{first_of};
ghost use Rattle.hazard.specs.Cube.{is_product};
ghost use Rattle.hazard.specs.Verdict.{products, products_check, digits_check, wires_check, network_checks, own_checks};
ghost use Rattle.refusal.specs.Answer.{refused_by};

use crate::network::NetworkBytes;
use cube::inputs::Inputs;
use hazard::limits::MOST_PRODUCTS;
use refusal::refusal::Refusal;

// 11: the length is no multiple of n, or there are more products than the limit. That n is not 0 is a clause, here and below, and no fact of
// `Inputs`: what takes no inputs too would ask more by it.
pub fn check_products(n: usize, bytes: &[u8]) -> Result<(), Refusal>
    requires { 1 ≤ n }
    ensures { refused_by result ≡ products_check n bytes.now }
{
    if bytes.len() % n != 0 || MOST_PRODUCTS < bytes.len() / n {
        return Err(Refusal::NetworkLength);
    }
    Ok(())
}

// Some byte of the product is above 2.
fn bad_product(product: &[u8]) -> bool
    ensures { result ≡ not (is_product (length product.now) product.now) }
{
    product.iter().any(|d| 2 < *d)
}

// 12: a byte above 2; the first such product.
pub fn check_digits(n: Inputs, bytes: &[u8]) -> Result<(), Refusal>
    requires { (1 ≤ n.count) × (length bytes.now / n.count ≤ most_products) }
    ensures { refused_by result ≡ digits_check n.count (products n.count bytes.now) }
{
    for (j, product) in bytes.chunks_exact(n.count).enumerate() {
        if bad_product(product) {
            return Err(Refusal::ProductByte { product: j as u16 });
        }
    }
    Ok(())
}

// Checks 11 and 12.
pub fn network_checks<'a>(n: Inputs, bytes: &'a [u8]) -> Result<NetworkBytes<'a>, Refusal>
    requires { 1 ≤ n.count }
    ensures { (refused_by result ≡ first_of (network_checks n.count bytes.now)) × IfOk result (λ network. (network.n ≡ n) × (network.bytes.now ≡ bytes.now)) }
{
    check_products(n.count, bytes)?;
    check_digits(n, bytes)?;
    Ok(NetworkBytes { n, bytes })
}

// 15: the wire buffer, of room numbers, is shorter than two for each input of each product.
pub fn check_wires(network: NetworkBytes, room: usize) -> Result<(), Refusal>
    ensures { refused_by result ≡ wires_check network.entry.n.count network.entry.bytes.now room }
{
    if room < 2 * network.n.count * network.count() {
        return Err(Refusal::ShortWires);
    }
    Ok(())
}

// Checks 11, 12 and 15.
pub fn own_checks<'a>(n: Inputs, bytes: &'a [u8], room: usize) -> Result<NetworkBytes<'a>, Refusal>
    requires { 1 ≤ n.count }
    ensures { (refused_by result ≡ first_of (own_checks n.count bytes.now room)) × IfOk result (λ network. (network.n ≡ n) × (network.bytes.now ≡ bytes.now)) }
{
    let network = network_checks(n, bytes)?;
    check_wires(network, room)?;
    Ok(network)
}
