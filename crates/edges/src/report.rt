// What is printed of the minimiser's answer, and of the rest of a buffer.
use std::fmt;
use testing::calls::Written;
use testing::marks::{are_wires_marked, is_marked};

// Whether a part of a buffer still has what was in it before the call.
#[derive(Clone, Copy)]
pub struct Kept<'a> {
    name: &'a str,
    is_empty: bool,
    is_marked: bool,
}

impl<'a> Kept<'a> {
    pub(crate) fn of_bytes(name: &'a str, bytes: &[u8]) -> Kept<'a> {
        Kept {
            name,
            is_empty: bytes.is_empty(),
            is_marked: is_marked(bytes),
        }
    }

    pub(crate) fn of_wires(name: &'a str, numbers: &[u16]) -> Kept<'a> {
        Kept {
            name,
            is_empty: numbers.is_empty(),
            is_marked: are_wires_marked(numbers),
        }
    }
}

impl<'a> fmt::Display for Kept<'a> {
    fn fmt<W: fmt::Write>(&self, f: &mut fmt::Formatter<W>) -> fmt::Result {
        let name = self.name;
        if self.is_empty {
            write!(f, "no {name}")
        } else if self.is_marked {
            write!(f, "{name} unchanged")
        } else {
            write!(f, "{name} CHANGED")
        }
    }
}

// How many products, their bytes where they are few, and whether several are in sequence.
#[derive(Clone, Copy)]
pub struct WrittenText<'a>(pub Written<'a>);

impl<'a> fmt::Display for WrittenText<'a> {
    fn fmt<W: fmt::Write>(&self, f: &mut fmt::Formatter<W>) -> fmt::Result {
        let Written {
            count,
            products,
            ..
        } = self.0;
        write!(f, "products {count}")?;
        if count <= 5 {
            write!(f, "{products}")?;
        }
        if count <= 1 {
            return Ok(());
        }
        if products.in_sequence() {
            write!(f, ", in sequence")
        } else {
            write!(f, ", OUT OF SEQUENCE")
        }
    }
}
