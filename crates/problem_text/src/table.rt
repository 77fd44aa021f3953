// The line of the table.
ghost use Rattle.std.specs.Prelude.{◌≡◌, ◌≤◌, length, take, option_map, IfSome};
ghost use Rattle.problem_text.specs.Read.{value_of, table_line};

// What a character stands for. No `TryFrom`: both are bytes.
fn value_of(c: u8) -> Option<u8>
    ensures { result ≡ value_of c }
{
    match c {
        b'0' => Some(0),
        b'1' => Some(1),
        b'-' => Some(2),
        _ => None,
    }
}

// The values of the line that a text begins with, up to its newline: how many they are, and what is left of the text.
pub fn table_into<'a>(text: &'a [u8], table: &mut [u8]) -> Option<(usize, &'a [u8])>
    requires { length text.now ≤ length table.old }
    ensures read { option_map (λ p. (take p.0 table.new, p.1.now)) result ≡ table_line text.now }
    ensures within { IfSome result (λ p. p.0 ≤ length table.new) }
{
    for (k, c) in text.iter().enumerate() {
        if *c == b'\n' {
            return Some((k, &text[k + 1..]));
        }
        table[k] = value_of(*c)?;
    }
    None
}
