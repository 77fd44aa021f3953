// The context of one output: what growth and the conditions on products read of it.
ghost use Rattle.std.specs.Prelude.{◌≤◌, take};
ghost use Rattle.columns.specs.Relation.{relates};
ghost use Rattle.columns.specs.declared.relation.Relation.TheVariants.{Meets, PointInside};
ghost use Rattle.blocks.specs.Blocks.{Blocks};

use cube::inputs::Inputs;
use points::set::PointSet;

// The OFF-set, and the privileged cubes as packed words, with their columns: of the cubes that a cube meets, and of the start points that
// it contains. There is room for 64; `count` says how many there are, since no heap is used and a value that is handed on can lend no
// part of itself.
#[derive(Clone, Copy)]
pub struct Context {
    pub n: Inputs,
    pub off: PointSet,
    pub privileged: [u64; 64],
    pub count: usize,
    pub meets: [u64; 30],
    pub starts: [u64; 30],
    ghost few: { count ≤ 64 },
    ghost meeting: { Blocks (λ w c. relates Meets n.count c w) n.count (take count privileged) meets },
    ghost starting: { Blocks (λ w c. relates PointInside n.count c w) n.count (take count privileged) starts },
}
