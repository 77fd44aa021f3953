// The set of the first rows, and whether a set has a row.
ghost use Rattle.std.specs.Prelude.{◌≡◌, not, ℕ, ◌*◌, ◌<◌, eqb, ltb, length, get_or};
ghost use Rattle.hazard.specs.Search.{found, first};
ghost use Rattle.cube.specs.PointSet.{in_set};

use columns::whole::whole_word;

// The set of the first rows.
pub fn whole_into(count: usize, out: &mut [u64])
    ensures { (k : ℕ) → k < 64 * length out.old → in_set out.new k ≡ ltb k count }
{
    for (b, word) in out.iter_mut().enumerate() {
        *word = whole_word(count, b);
    }
}

// The set has a row.
pub fn has_row(set: &[u64]) -> bool
    ensures { result ≡ found (first (λ b. not (eqb (get_or set.now b 0) 0)) 0 (length set.now)) }
{
    set.iter().any(|word| *word != 0)
}
