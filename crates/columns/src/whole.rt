// The set of the first rows, one word of it.
ghost use Rattle.std.specs.Prelude.{◌≡◌, ℕ, ◌+◌, ◌*◌, ◌<◌, eqb, ltb};
ghost use Rattle.hazard.specs.Cube.{bit};

// Word b of the set of the first rows, as many as are counted.
pub fn whole_word(count: usize, b: usize) -> u64
    ensures { (t : ℕ) → t < 64 → eqb (bit result t) 1 ≡ ltb (64 * b + t) count }
{
    let full = count / 64;
    if b < full {
        return u64::MAX;
    }
    if full < b {
        return 0;
    }
    (1u64 << (count % 64)) - 1
}
