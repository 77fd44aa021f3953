// A text is read as what is left of it: each function takes what a text begins with, and hands on the rest.
ghost use Rattle.std.specs.Prelude.{◌≤◌, length, IfSome};

// The rest after this byte, if it stands first; else the whole text.
pub(crate) fn skip(text: &[u8], byte: u8) -> &[u8]
    ensures { length result.now ≤ length text.now }
{
    text.strip_prefix(&[byte]).unwrap_or(text)
}

// The rest after the first such byte.
pub(crate) fn after(text: &[u8], byte: u8) -> Option<&[u8]>
    ensures { IfSome result (λ rest. length rest.now ≤ length text.now) }
{
    let at = text.iter().position(|b| *b == byte)?;
    Some(&text[at + 1..])
}

// A number with a digit more. One that is too large for a digit more starts anew at 0: what a text says never ends the program.
fn with_digit(x: u64, digit: u8) -> u64 {
    if u64::MAX / 10 < x {
        return 0;
    }
    (x * 10).wrapping_add(u64::from(digit))
}

// The number that the digits at a text's head say, 0 where there are none; and the rest after them. Not `parse`, which takes a sign, and
// refuses what is too large.
pub(crate) fn number(text: &[u8]) -> (u64, &[u8]) {
    let mut x = 0;
    for (i, c) in text.iter().enumerate() {
        if !c.is_ascii_digit() {
            return (x, &text[i..]);
        }
        x = with_digit(x, *c - b'0');
    }
    (x, &[])
}

// The number after this byte, if it stands first.
pub(crate) fn number_after(text: &[u8], byte: u8) -> Option<(u64, &[u8])> {
    let rest = text.strip_prefix(&[byte])?;
    Some(number(rest))
}
