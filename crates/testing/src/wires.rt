// The wires of a run.
use std::fmt;

// A wire: its product, and its input.
pub type Wire = [u16; 2];

#[derive(Clone, Copy)]
pub struct Wires<'a>(pub &'a [Wire]);

// A space before each wire.
impl<'a> fmt::Display for Wires<'a> {
    fn fmt<W: fmt::Write>(&self, f: &mut fmt::Formatter<W>) -> fmt::Result {
        for [product, input] in self.0 {
            write!(f, " {product}/{input}")?;
        }
        Ok(())
    }
}
