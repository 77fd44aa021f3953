// A cube with a transition and a point, packed into one word: all required cubes then stand in one lent array.
ghost use Rattle.std.specs.Prelude.{◌≡◌, ◌/◌, ◌%◌, ◌^◌, ◌<◌};
ghost use Rattle.cube.specs.Entry.{transition_in, point_in, care_in, value_in, Packed};

use crate::mask::Cube;

// The bit of a word at which the value of its cube begins.
pub const VALUE_BIT: usize = 0;

// The bit at which the care begins.
pub const CARE_BIT: usize = 16;

// The bit at which the point begins.
pub const POINT_BIT: usize = 32;

// The bit at which the transition begins.
const TRANSITION_BIT: usize = 48;

// The word.
pub fn pack(transition: u16, point: u16, c: Cube) -> u64
    ensures { Packed result transition point c.care c.value }
{
    let high = ((transition as u64) << TRANSITION_BIT) + ((point as u64) << POINT_BIT);
    let low = ((c.care as u64) << CARE_BIT) + ((c.value as u64) << VALUE_BIT);
    high + low
}

// The field of 16 bits that begins at a bit.
fn field_at(w: u64, bit: usize) -> u16
    requires { bit < 64 }
    ensures { result ≡ w / 2 ^ bit % 65536 }
{
    ((w >> bit) % 65536) as u16
}

// Its fields. A reader each, and no conversion of the whole word: whoever reads a word wants one of them.
pub fn transition_in(w: u64) -> u16
    ensures { result ≡ transition_in w }
{
    field_at(w, TRANSITION_BIT)
}

pub fn point_in(w: u64) -> u16
    ensures { result ≡ point_in w }
{
    field_at(w, POINT_BIT)
}

pub fn cube_in(w: u64) -> Cube
    ensures { (result.care ≡ care_in w) × (result.value ≡ value_in w) }
{
    Cube {
        care: field_at(w, CARE_BIT),
        value: field_at(w, VALUE_BIT),
    }
}
