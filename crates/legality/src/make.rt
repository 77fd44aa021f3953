// A context is made of an OFF-set and privileged cubes.
ghost use Rattle.std.specs.Prelude.{◌≡◌, ◌≤◌, length};
ghost use Rattle.context.specs.Context.{privileged_words};

use blocks::fill::blocks_into;
use columns::relation::Relation;
use context::context::Context;
use cube::inputs::Inputs;
use points::set::PointSet;

// The context with these privileged cubes, and their columns.
pub fn context_of(n: Inputs, off: PointSet, privileged: &[u64]) -> Context
    requires { length privileged.now ≤ 64 }
    ensures { (result.n ≡ n) × (result.off ≡ off) × (privileged_words result ≡ privileged.now) }
{
    let count = privileged.len();
    let mut words = [0; 64];
    words[..count].copy_from_slice(privileged);
    let mut meets = [0; 30];
    blocks_into(Relation::Meets, n, privileged, &mut meets);
    let mut starts = [0; 30];
    blocks_into(Relation::PointInside, n, privileged, &mut starts);
    Context {
        n,
        off,
        privileged: words,
        count,
        meets,
        starts,
    }
}
