// One word of a set of points, and the points that it holds, one after another.
ghost use Rattle.std.specs.Prelude.{◌≡◌, ◌+◌, ◌*◌, ◌^◌, ◌<◌};
ghost use Rattle.std.specs.Iterator.{YieldsFirst, item_count};
ghost use Rattle.std.specs.Int.Count.{count_trailing_zeros};

use cube::member::Members;

// The lowest of the points of word w that are the bits of `points`.
pub fn lowest_point(w: usize, points: u64) -> u16
    requires { w < 16 }
    ensures { result ≡ 64 * w + count_trailing_zeros 64 points }
{
    (64 * w + points.trailing_zeros() as usize) as u16
}

// The points of word w, in ascending order: those that are still to come.
#[derive(Drop)]
pub struct Points {
    word: usize,
    bits: Members,
    ghost place: { word < 16 },
    ghost small: { bits.left < 2 ^ 64 },
}

// The points of word w that are the bits of `points`.
pub fn points_of(w: usize, points: u64) -> Points
    requires { w < 16 }
    ensures { (result.word ≡ w) × (result.bits.left ≡ points) }
{
    Points {
        word: w,
        bits: Members::of(points),
    }
}

impl Iterator for Points {
    type Item = u16;

    ghost use Rattle.points.specs.PointWord.{points_left};

    ghost next_gives = { YieldsFirst points_left };

    ghost remaining = { item_count points_left };

    fn next(&mut self) -> Option<u16> {
        let bit = self.bits.next()?;
        Some((64 * self.word + bit) as u16)
    }
}
