// The program's call: the output for a text.
ghost use Rattle.std.specs.Prelude.{◌≤◌, length};
ghost use Rattle.writing.specs.Output.{most_output};
ghost use Rattle.quiet_text.specs.Answer.{Solved, Replied};

use answer_text::reply::{MOST_OUTPUT, put_network, put_refusal};
use hazard::limits::MOST_COVER;
use minimiser::minimise::minimise;
use problem_text::read::read_problem;
use refusal::refusal::Refusal;

// The output for a problem.
fn solve(inputs: usize, table: &[u8], transitions: &[u16], out: &mut [u8]) -> usize
    requires { most_output ≤ length out.old }
    ensures { Solved inputs table.now transitions.now out.old out.new (Some result) }
{
    let mut cover = [0u8; MOST_COVER];
    match minimise(inputs, table, transitions, &mut cover) {
        Err(r) => put_refusal(r, out),
        Ok(count) => put_network(inputs, count, &cover, out),
    }
}

// How many bytes the output for a text has, which stand at the buffer's beginning. The buffer has room for every output:
// a clause and not an array of that size, since a caller may lend a longer one.
pub fn reply(text: &[u8], out: &mut [u8]) -> usize
    requires { most_output ≤ length out.old }
    ensures { Replied text.now out.old out.new (Some result) }
{
    let mut table = [0u8; 4096];
    let mut transitions = [0u16; 4096 / 2];
    match read_problem(text, &mut table, &mut transitions) {
        None => put_refusal(Refusal::MalformedText, out),
        Some(sizes) => solve(
            sizes.inputs,
            &table[..sizes.table],
            &transitions[..sizes.transitions],
            out,
        ),
    }
}

// The output for a text, in a buffer of any length: how many bytes at its beginning are the products of a network, or a refusal. A buffer
// that is too short for the longest output is left as it was.
pub fn answer(text: &[u8], out: &mut [u8]) -> Option<usize>
    ensures { Replied text.now out.old out.new result }
{
    if out.len() < MOST_OUTPUT {
        return None;
    }
    Some(reply(text, out))
}
