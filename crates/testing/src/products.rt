// The products of a network.
use std::fmt;

// The digits of a product.
#[derive(Clone, Copy)]
struct Product<'a>(&'a [u8]);

impl<'a> fmt::Display for Product<'a> {
    fn fmt<W: fmt::Write>(&self, f: &mut fmt::Formatter<W>) -> fmt::Result {
        for digit in self.0 {
            write!(f, "{digit}")?;
        }
        Ok(())
    }
}

// Products of n bytes each. There is at least one input where there are any.
#[derive(Clone, Copy)]
pub struct Products<'a> {
    pub n: usize,
    pub bytes: &'a [u8],
}

impl<'a> Products<'a> {
    // Whether each product comes before the next.
    pub fn in_sequence(&self) -> bool {
        self.n != 0 && self.bytes.chunks_exact(self.n).is_sorted_by(|p, q| p < q)
    }
}

// A space before each product.
impl<'a> fmt::Display for Products<'a> {
    fn fmt<W: fmt::Write>(&self, f: &mut fmt::Formatter<W>) -> fmt::Result {
        if self.n == 0 {
            return Ok(());
        }
        for product in self.bytes.chunks(self.n) {
            let digits = Product(product);
            write!(f, " {digits}")?;
        }
        Ok(())
    }
}
