// The planes of a table: the points with the value 0, and those with the value 1. No other file reads a table.
ghost use Rattle.std.specs.Prelude.{◌≡◌, ◌^◌, ◌≤◌, length};
ghost use Rattle.context.specs.Planes.{plane_word, Plane, Apart};

use cube::inputs::Inputs;
use points::set::PointSet;

// The points with the value 0, and those with the value 1.
#[derive(Clone, Copy)]
pub struct Planes {
    pub n: Inputs,
    pub zeros: PointSet,
    pub ones: PointSet,
    ghost are: { Apart n.count zeros.words ones.words },
}

// The points with the value 0, and those with the value 1, as bits: one pass gives both words. The last point is taken first, and up to 64
// points fill a word.
fn plane_words(points: &[u8]) -> (u64, u64)
    requires { length points.now ≤ 64 }
    ensures { (result.0 ≡ plane_word 0 points.now) × (result.1 ≡ plane_word 1 points.now) }
{
    points.iter().rev().fold((0, 0), |(zeros, ones), y| {
        (
            (zeros << 1) | (*y == 0) as u64,
            (ones << 1) | (*y == 1) as u64,
        )
    })
}

impl Planes {
    // The planes of a table. Of a point past the table's end there is no value. By number, and not `zip`, since two sets are written.
    pub fn of(n: Inputs, table: &[u8]) -> Planes
        requires { length table.now ≤ 2 ^ n.count }
        ensures { (result.n ≡ n) × Plane table.now 0 result.zeros.words × Plane table.now 1 result.ones.words }
    {
        let mut zeros = PointSet::empty();
        let mut ones = PointSet::empty();
        for (w, points) in table.chunks(64).enumerate() {
            let (zero_word, one_word) = plane_words(points);
            zeros.words[w] = zero_word;
            ones.words[w] = one_word;
        }
        Planes { n, zeros, ones }
    }
}
