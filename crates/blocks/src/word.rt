// The words of the columns: for each input and digit a run, with one word for each block.
ghost use Rattle.std.specs.Prelude.{◌≡◌, ℕ, ◌*◌, ◌^◌, ◌<◌, length, get_or};
ghost use Rattle.blocks.specs.Blocks.{stride, run_of, word_at};

// How many words a run has: as many as there are blocks that the columns have room for.
pub fn stride(columns: &[u64]) -> usize
    ensures { result ≡ stride columns.now }
{
    columns.len() / 30
}

// Where the run of input i and digit d begins, with so many words in each run. Input and digit are plain numbers, asked to be small, because
// loops give the one and `digit_at` the other.
pub fn run_of(words: usize, i: usize, d: usize) -> usize
    requires { (30 * words < 2 ^ 64) × (i < 10) × (d < 3) }
    ensures { result ≡ run_of words i d }
{
    words * (3 * i + d)
}

// The run of input i and digit d.
pub fn run(columns: &[u64], i: usize, d: usize) -> &[u64]
    requires { (i < 10) × (d < 3) }
    ensures { (length result.now ≡ stride columns.now) × ((b : ℕ) → b < stride columns.now → get_or result.now b 0 ≡ word_at columns.now i d b) }
{
    let words = stride(columns);
    let at = run_of(words, i, d);
    &columns[at..at + words]
}

// The word of input i and digit d for block b.
pub fn word_at(columns: &[u64], i: usize, d: usize, b: usize) -> u64
    requires { (i < 10) × (d < 3) × (b < stride columns.now) }
    ensures { result ≡ word_at columns.now i d b }
{
    run(columns, i, d)[b]
}
