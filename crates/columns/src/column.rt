// One bit of each of up to 64 words, as the bits of one word.
ghost use Rattle.std.specs.Prelude.{◌≡◌, ◌≤◌, ◌<◌, length};
ghost use Rattle.columns.specs.Column.{column_of};

// Bit b of each word: word k gives bit k. The last word is taken first, and up to 64 words fill the number. That there are no more is a clause: the
// words are a chunk of a lent slice, whose type says nothing of its length.
pub fn column(words: &[u64], b: usize) -> u64
    requires { (length words.now ≤ 64) × (b < 64) }
    ensures { result ≡ column_of b words.now }
{
    words.iter().rev().fold(0, |r, w| (r << 1) | ((w >> b) & 1))
}
