// Numbers in a text.
ghost use Rattle.std.specs.Prelude.{◌≡◌, true, option_map};
ghost use Rattle.std.specs.Char.{is_ascii_digit};
ghost use Rattle.problem_text.specs.Read.{extended, number};

// A number with a digit more: no leading zeros, and nothing above 65535.
// Not `parse`, which takes a sign and leading zeros.
fn with_digit(x: u16, c: u8) -> Option<u16>
    requires { is_ascii_digit c ≡ true }
    ensures { result ≡ extended x c }
{
    if x == 0 {
        return None;
    }
    u16::try_from(u32::from(x) * 10 + u32::from(c - b'0')).ok()
}

// The number that a text begins with, its digits up to the first other byte; and what is left of the text.
pub fn number(text: &[u8]) -> Option<(u16, &[u8])>
    ensures { option_map (λ p. (p.0, p.1.now)) result ≡ number text.now }
{
    let (first, rest) = text.split_first()?;
    if !first.is_ascii_digit() {
        return None;
    }
    let mut x = u16::from(*first - b'0');
    for (i, c) in rest.iter().enumerate() {
        if !c.is_ascii_digit() {
            return Some((x, &rest[i..]));
        }
        x = with_digit(x, *c)?;
    }
    Some((x, &[]))
}
