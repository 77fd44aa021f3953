// The lines of transitions.
ghost use Rattle.std.specs.Prelude.{◌≡◌, ◌≤◌, ◌/◌, length, option_map};
ghost use Rattle.problem_text.specs.Read.{transition_line, Lines};

use crate::field::field;

// The start and the end of the transition of the line that a text begins with, and what is left after the line.
fn transition(text: &[u8]) -> Option<(u16, u16, &[u8])>
    ensures { option_map (λ l. (l.0, l.1, l.2.now)) result ≡ transition_line text.now }
{
    let (a, middle) = field(text, b' ')?;
    let (b, left) = field(middle, b'\n')?;
    Some((a, b, left))
}

// The numbers of all lines of a text, two for each, and how many they are; a line takes at least four bytes.
pub fn transitions_into(text: &[u8], transitions: &mut [u16]) -> Option<usize>
    requires { (length text.now ≤ 4096) × (4096 / 2 ≤ length transitions.old) }
    ensures { Lines text.now transitions.new result }
{
    let mut k = 0;
    let mut left = text;
    // Not a `for`: where a line ends is known once it is read.
    while !left.is_empty() {
        let (a, b, next) = transition(left)?;
        transitions[k] = a;
        transitions[k + 1] = b;
        k += 2;
        left = next;
    }
    Some(k)
}
