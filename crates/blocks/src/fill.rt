// The columns of rows, block by block.
ghost use Rattle.std.specs.Prelude.{◌*◌, ◌≤◌, ◌<◌, length};
ghost use Rattle.columns.specs.Relation.{relates};
ghost use Rattle.blocks.specs.Blocks.{stride, Blocks, BlockFilled};

use crate::word::{run_of, stride};
use columns::relation::{Relation, allowed_at};
use cube::inputs::Inputs;

// The words of block b, whose rows are lent.
fn block_into(rel: Relation, n: Inputs, rows: &[u64], b: usize, columns: &mut [u64])
    requires { (length rows.now ≤ 64) × (b < stride columns.old) }
    ensures { BlockFilled rel n.count rows.now b columns.old columns.new }
{
    let words = stride(columns);
    for i in 0..n.count {
        let allowed = allowed_at(rel, rows, i);
        columns[run_of(words, i, 0) + b] = allowed.zero;
        columns[run_of(words, i, 1) + b] = allowed.one;
        columns[run_of(words, i, 2) + b] = allowed.absent;
    }
}

// The columns of all rows.
pub fn blocks_into(rel: Relation, n: Inputs, rows: &[u64], columns: &mut [u64])
    requires { length rows.now ≤ 64 * stride columns.old }
    ensures { Blocks (λ w c. relates rel n.count c w) n.count rows.now columns.new }
{
    for (b, block) in rows.chunks(64).enumerate() {
        block_into(rel, n, block, b, columns);
    }
}
