// What is to be covered, and with what.
ghost use Rattle.std.specs.Prelude.{ℕ, get_or};
ghost use Rattle.cube.specs.Entry.{CleanWord};

use context::context::Context;

// The required cubes of an output, to be covered with dhf-primes of its context, and columns. That the columns have the required cubes for
// their rows is asked where a promise rests on it.
#[derive(Clone, Copy)]
pub struct Covering<'a> {
    pub context: &'a Context,
    pub required: &'a [u64],
    pub columns: &'a [u64],
    ghost clean: { (k : ℕ) → CleanWord context.now.n.count (get_or required.now k 0) },
}
