// For each required cube that lies in a product, the first product that contains it, by its place among the products.
ghost use Rattle.std.specs.Prelude.{◌≡◌, cond, ℕ, ◌≤◌, ◌<◌, T, length, get_or};
ghost use Rattle.cube.specs.PointSet.{in_set};
ghost use Rattle.rows.specs.Sets.{most_words};

use crate::put::put;

// Product j is noted for the rows of a set.
pub fn note(firsts: &mut [u16], set: &[u64], j: u16)
    requires few { length set.now ≤ most_words }
    requires room { (i : ℕ) → T (in_set set.now i) → i < length firsts.old }
    ensures { (i : ℕ) → get_or firsts.new i 0 ≡ cond (in_set set.now i) j (get_or firsts.old i 0) }
{
    put(firsts, set, j);
}
