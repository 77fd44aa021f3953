// Which products contain a required cube.
ghost use Rattle.std.specs.Prelude.{◌≡◌, ◌*◌, ◌≤◌, length};
ghost use Rattle.hazard.specs.Cover.{covered};
ghost use Rattle.cube.specs.Entry.{cube_in, network_in};
ghost use Rattle.rows.specs.Sets.{Fits};
ghost use Rattle.conditions.specs.Rows.{Containing};

use cube::entry::cube_in;
use cube::inputs::Inputs;
use rows::narrow::narrow;
use rows::whole::{has_row, whole_into};

// Some product contains the required cube. The products are the rows of the columns; `rows` is room for a set of them.
pub fn covers(n: Inputs, products: &[u64], columns: &[u64], rows: &mut [u64], r: u64) -> bool
    requires fits { Fits columns.now rows.old × (length products.now ≤ 64 * length rows.old) }
    requires containing { Containing n.count products.now columns.now }
    ensures { result ≡ covered (network_in n.count products.now) (cube_in n.count r) }
{
    whole_into(products.len(), rows);
    narrow(n, columns, cube_in(r), rows);
    has_row(rows)
}
