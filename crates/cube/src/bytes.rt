// Products as bytes, one for each input.
ghost use Rattle.std.specs.Prelude.{◌≡◌, List, ◌∷◌, ℕ, ◌+◌, ◌^◌, ◌≤◌, ◌<◌, length, get_or, take, drop};
ghost use Rattle.std.proofs.Math.Seq.{paste};
ghost use Rattle.cube.specs.Mask.{cube_of, Stands};

use crate::mask::{Cube, digit_at};

// The cube with one input more, before the others.
fn prepended(c: Cube, d: u8) -> Cube
    requires { (c.care < 2 ^ 15) × (c.value < 2 ^ 15) × (d ≤ 2) }
    ensures { (m : ℕ) (ds : List ℕ) → Stands m c ds → Stands (m + 1) result (d ∷ ds) }
{
    if d == 2 {
        return Cube {
            care: c.care * 2,
            value: c.value * 2,
        };
    }
    Cube {
        care: c.care * 2 + 1,
        value: c.value * 2 + d as u16,
    }
}

// The product of the bytes, read from its last input to its first. By number, and not `iter().rev()`: the loop keeps a fact of the bytes from a
// place on.
pub fn product_of(bytes: &[u8]) -> Cube
    requires { (length bytes.now ≤ 10) × ((i : ℕ) → i < length bytes.now → get_or bytes.now i 0 ≤ 2) }
    ensures { Stands (length bytes.now) result bytes.now }
{
    let mut c = Cube { care: 0, value: 0 };
    for i in (0..bytes.len()).rev() {
        c = prepended(c, bytes[i]);
    }
    c
}

// The cube's digits, one for each byte.
pub fn write_product(c: Cube, out: &mut [u8])
    requires { length out.old ≤ 10 }
    ensures { out.new ≡ cube_of (length out.old) c }
{
    for (i, byte) in out.iter_mut().enumerate() {
        *byte = digit_at(c, i) as u8;
    }
}
