// Bytes, numbers and lines, written to the beginning of the output; each answers how many bytes it wrote.
// No `Display`: the library's formatting may fail, and these cannot, since a caller lends the room that they need.
ghost use Rattle.std.specs.Prelude.{◌∷◌, [], ◌++◌, map, ◌+◌, ◌*◌, ◌≤◌, ◌<◌, ◌≡◌, length};
ghost use Rattle.hazard.specs.Limits.{most_required};
ghost use Rattle.hazard.specs.Verdict.{cut};
ghost use Rattle.problem_text.specs.Decimal.{decimal};
ghost use Rattle.problem_text.specs.Form.{newline, cell};
ghost use Rattle.writing.specs.Output.{field, product_lines};
ghost use Rattle.writing.specs.Put.{Put};

use itoa::Buffer;

pub fn put_bytes(bytes: &[u8], out: &mut [u8]) -> usize
    requires { length bytes.now ≤ length out.old }
    ensures { Put out.old bytes.now out.new result }
{
    out[..bytes.len()].copy_from_slice(bytes);
    bytes.len()
}

pub fn put_number(x: u16, out: &mut [u8]) -> usize
    requires { 5 ≤ length out.old }
    ensures { Put out.old (decimal x) out.new result }
{
    put_bytes(Buffer::new().format(x).as_bytes(), out)
}

// A number with a space before it.
pub fn put_field(x: u16, out: &mut [u8]) -> usize
    requires { 6 ≤ length out.old }
    ensures { Put out.old (field x) out.new result × (result ≤ 6) }
{
    out[0] = b' ';
    1 + put_number(x, &mut out[1..])
}

// The character of a product's digit. Bytes of two formats, and no type of this crate to print.
fn cell_of(d: u8) -> u8
    ensures { result ≡ cell d }
{
    match d {
        0 => b'0',
        1 => b'1',
        _ => b'-',
    }
}

// A product, a character for each input, and the end of its line. By number, and not `zip`: of what is written through that no proof learns anything.
fn put_product(product: &[u8], out: &mut [u8]) -> usize
    requires { length product.now < length out.old }
    ensures { Put out.old (map cell product.now ++ (newline ∷ [])) out.new result }
{
    for (i, d) in product.iter().enumerate() {
        out[i] = cell_of(*d);
    }
    out[product.len()] = b'\n';
    product.len() + 1
}

// The products whose bytes stand one after another, a line each.
pub fn put_products(n: usize, count: usize, products: &[u8], out: &mut [u8]) -> usize
    requires { (count * n ≤ length products.now) × (count * (n + 1) ≤ length out.old) × (n ≤ 10) × (count ≤ most_required) }
    ensures { Put out.old (product_lines (cut n count products.now)) out.new result }
{
    let mut at = 0;
    // Not `chunks_exact`: with no inputs a product is an empty line, and a chunk has to have a length.
    for j in 0..count {
        at += put_product(&products[j * n..(j + 1) * n], &mut out[at..]);
    }
    at
}
