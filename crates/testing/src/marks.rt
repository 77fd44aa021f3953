// What a buffer holds before a call, so that what the call leaves alone is told from what it writes.
ghost use Rattle.std.specs.Prelude.{◌≡◌, ◌↔◌, IsTrue, All};

// No product has such a byte.
pub const MARK: u8 = 9;

// No product and no input of a network has this number.
pub const WIRE_MARK: u16 = u16::MAX;

// Whether each byte is the mark.
pub fn is_marked(bytes: &[u8]) -> bool
    ensures { IsTrue result ↔ All (λ x. x ≡ MARK) bytes.now }
{
    bytes.iter().all(|b| *b == MARK)
}

// Whether each number of a wire buffer is its mark.
pub fn are_wires_marked(numbers: &[u16]) -> bool
    ensures { IsTrue result ↔ All (λ x. x ≡ WIRE_MARK) numbers.now }
{
    numbers.iter().all(|x| *x == WIRE_MARK)
}
