// A run, replayed by its own wires on the bytes of a network: nothing is taken from what chose it.
ghost use Rattle.std.specs.Prelude.{◌≡◌, ◌<◌, ◌/◌, ◌%◌, ◌^◌};

use crate::products::Products;
use crate::wires::Wires;
use std::fmt;

// A run of the transition between two points.
#[derive(Clone, Copy)]
pub struct Run<'a> {
    pub network: Products<'a>,
    pub from: u16,
    pub to: u16,
    pub wires: Wires<'a>,
}

// The value of input i at a point; 0 past the last.
fn value(x: u16, i: u16) -> u8
    ensures { i < 16 → result ≡ x / 2 ^ i % 2 }
{
    if i < 16 { ((x >> i) % 2) as u8 } else { 0 }
}

impl<'a> Run<'a> {
    // What the literal of product m on input i sees after so many steps.
    fn seen(&self, m: u16, i: u16, steps: usize) -> u8 {
        let has_moved = self.wires.0.iter().take(steps).any(|wire| *wire == [m, i]);
        value(if has_moved { self.to } else { self.from }, i)
    }

    // Whether all literals of product m are satisfied by what they see.
    fn is_satisfied(&self, m: u16, product: &[u8], steps: usize) -> bool {
        (0..u16::MAX).zip(product.iter()).all(|(i, digit)| *digit == 2
            || *digit == self.seen(m, i, steps))
    }

    // The output after so many steps.
    fn output(&self, steps: usize) -> bool {
        let Products { n, bytes } = self.network;
        n != 0
            && (0..u16::MAX)
                .zip(bytes.chunks_exact(n))
                .any(|(m, product)| self.is_satisfied(m, product, steps))
    }
}

// A longer run is printed as the number of its wires.
const FEW: usize = 8;

// The wires, and the output before the first step and after each.
impl<'a> fmt::Display for Run<'a> {
    fn fmt<W: fmt::Write>(&self, f: &mut fmt::Formatter<W>) -> fmt::Result {
        let wires = self.wires;
        let count = wires.0.len();
        if FEW < count {
            return write!(f, "{count} wires");
        }
        if count == 0 {
            write!(f, "no wire, output")?;
        } else {
            write!(f, "wires{wires}, output")?;
        }
        for steps in 0..=count {
            let output = u8::from(self.output(steps));
            write!(f, " {output}")?;
        }
        Ok(())
    }
}
