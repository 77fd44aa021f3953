// A seeded generator: Marsaglia's xorshift of 64 bits.
pub(crate) fn next(seed: u64) -> u64 {
    let a = seed ^ (seed << 13);
    let b = a ^ (a >> 7);
    b ^ (b << 17)
}

// The numbers that follow a seed.
#[derive(Drop)]
pub struct Draws(pub u64);

impl Iterator for Draws {
    type Item = u64;

    fn next(&mut self) -> Option<u64> {
        self.0 = next(self.0);
        Some(self.0)
    }
}

// The low 16 bits.
pub(crate) fn short(x: u64) -> u16 {
    (x % 65536) as u16
}
