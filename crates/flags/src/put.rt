// One value put at the rows of a set: a product noted for required cubes, or their flags set.
ghost use Rattle.std.specs.Prelude.{◌≡◌, cond, ℕ, ◌≤◌, ◌<◌, T, length, get_or};
ghost use Rattle.cube.specs.PointSet.{in_set};
ghost use Rattle.rows.specs.Sets.{most_words};
ghost use Rattle.flags.specs.Rows.{in_word};

use cube::member::Members;

// The value at the rows of word b of a set.
fn put_word<V: Copy>(places: &mut [V], b: usize, word: u64, value: V)
    requires block { b < most_words }
    requires room { (i : ℕ) → T (in_word b word i) → i < length places.old }
    ensures { (d : V) (i : ℕ) → get_or places.new i d ≡ cond (in_word b word i) value (get_or places.old i d) }
{
    for i in Members::of(word) {
        places[64 * b + i] = value;
    }
}

// The value at the rows of a set.
pub fn put<V: Copy>(places: &mut [V], set: &[u64], value: V)
    requires few { length set.now ≤ most_words }
    requires room { (i : ℕ) → T (in_set set.now i) → i < length places.old }
    ensures { (d : V) (i : ℕ) → get_or places.new i d ≡ cond (in_set set.now i) value (get_or places.old i d) }
{
    for (b, word) in set.iter().enumerate() {
        put_word(places, b, *word, value);
    }
}
