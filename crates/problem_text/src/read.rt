// A problem's text.
ghost use Rattle.std.specs.Prelude.{◌/◌, ◌≤◌, length};
ghost use Rattle.problem_text.specs.Read.{Reading};

use crate::field::field;
use crate::table::table_into;
use crate::transition::transitions_into;

// The sizes of what a text says: its number of inputs, and how many values at the beginning of each lent room are its table and its
// transitions, two numbers for each of these.
#[derive(Clone, Copy)]
pub struct Sizes {
    pub inputs: usize,
    pub table: usize,
    pub transitions: usize,
}

// The number of inputs, then the table, then the transitions, each into its lent room. A number takes at least two bytes of a text, so that a
// text of 4,096 bytes has at most half as many.
pub fn read_problem(text: &[u8], table: &mut [u8], transitions: &mut [u16]) -> Option<Sizes>
    requires { (4096 ≤ length table.old) × (4096 / 2 ≤ length transitions.old) }
    ensures { Reading text.now table.new transitions.new result }
{
    if 4096 < text.len() {
        return None;
    }
    let (n, after) = field(text, b'\n')?;
    let (table_length, lines) = table_into(after, table)?;
    if table_length == 0 {
        return None;
    }
    let count = transitions_into(lines, transitions)?;
    Some(Sizes {
        inputs: usize::from(n),
        table: table_length,
        transitions: count,
    })
}
