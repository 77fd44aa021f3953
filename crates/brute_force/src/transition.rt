// Transitions.
use crate::product::Product;

#[derive(Clone, Copy)]
pub struct Transition {
    // A and B
    pub from: u16,
    pub to: u16,
}

impl Transition {
    // The points of [A,B].
    pub(crate) fn points(self) -> u16 {
        Product::between(self.from, self.to).points()
    }

    pub(crate) fn reversed(self) -> Transition {
        Transition {
            from: self.to,
            to: self.from,
        }
    }

    // How many inputs move.
    pub(crate) fn width(self) -> u32 {
        (self.from ^ self.to).count_ones()
    }
}
