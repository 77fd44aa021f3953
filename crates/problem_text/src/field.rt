// A number with the byte that ends it.
ghost use Rattle.std.specs.Prelude.{◌≡◌, option_map};
ghost use Rattle.problem_text.specs.Read.{field_by};

use crate::number::number;

// The number that a text begins with, and what is left after the byte that ends it.
pub fn field(text: &[u8], end: u8) -> Option<(u16, &[u8])>
    ensures { option_map (λ p. (p.0, p.1.now)) result ≡ field_by end text.now }
{
    let (x, rest) = number(text)?;
    let (next, left) = rest.split_first()?;
    if *next == end { Some((x, left)) } else { None }
}
