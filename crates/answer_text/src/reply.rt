// The output for the minimiser's answer, written to the output's beginning. No `Display`: the heads are copied as bytes, and nothing here can fail.
ghost use Rattle.std.specs.Prelude.{◌*◌, ◌≤◌, ◌∷◌, ◌++◌, length};
ghost use Rattle.hazard.specs.Limits.{most_required};
ghost use Rattle.hazard.specs.Verdict.{cut};
ghost use Rattle.refusal.specs.Answer.{refusal_of};
ghost use Rattle.problem_text.specs.Decimal.{decimal};
ghost use Rattle.problem_text.specs.Form.{newline};
ghost use Rattle.writing.specs.Output.{products_head, product_lines, most_output, refusal_text};
ghost use Rattle.writing.specs.Put.{Put};

use hazard::limits::MOST_REQUIRED;
use refusal::refusal::Refusal;
use writing::put::{put_bytes, put_field, put_number, put_products};

// The bytes of the longest output: a head of 9, a count of 5, an end of line, and a line of 11 for each required cube.
pub const MOST_OUTPUT: usize = 15 + 11 * MOST_REQUIRED;

// The number and the fields of a refusal.
pub fn put_refusal(r: Refusal, out: &mut [u8]) -> usize
    requires { 38 ≤ length out.old }
    ensures { Put out.old (refusal_text (refusal_of r)) out.new result }
{
    let fields = r.fields();
    let mut at = put_bytes(b"refused", out);
    at += put_field(u16::from(fields.number), &mut out[at..]);
    at += put_field(fields.transition, &mut out[at..]);
    at += put_field(fields.point, &mut out[at..]);
    at += put_field(fields.steps, &mut out[at..]);
    at += put_field(fields.lowest, &mut out[at..]);
    at + put_bytes(b"\n", &mut out[at..])
}

// The count of the products, and the products.
pub fn put_network(n: usize, count: usize, products: &[u8], out: &mut [u8]) -> usize
    requires { (count * n ≤ length products.now) × (n ≤ 10) × (count ≤ most_required) × (most_output ≤ length out.old) }
    ensures { Put out.old (products_head ++ (decimal count ++ (newline ∷ product_lines (cut n count products.now)))) out.new result }
{
    let mut at = put_bytes(b"products ", out);
    at += put_number(count as u16, &mut out[at..]);
    at += put_bytes(b"\n", &mut out[at..]);
    at + put_products(n, count, products, &mut out[at..])
}
