// Products, and their points where they have at most four inputs.
use crate::set::{bit, has};

#[derive(Clone, Copy, Default)]
pub struct Product {
    // the inputs with a literal, and those with a plain one
    pub care: u16,
    pub value: u16,
}

impl Product {
    // The smallest cube around two points.
    pub(crate) fn between(x: u16, y: u16) -> Product {
        Product {
            care: 15 ^ x ^ y,
            value: x,
        }
    }

    // The smallest cube around the cube and a point.
    pub(crate) fn joined(self, x: u16) -> Product {
        Product {
            care: self.care & (15 ^ self.value ^ x),
            ..self
        }
    }

    // The product with a literal on input i more: 0 inverted, 1 plain, and any other digit none.
    fn with_literal(self, i: u16, digit: u8) -> Product {
        let b = bit(i);
        match digit {
            0 => Product {
                care: self.care | b,
                ..self
            },
            1 => Product {
                care: self.care | b,
                value: self.value | b,
            },
            _ => self,
        }
    }

    // The product of n inputs with the code's digits in base three as its bytes, input 0 first.
    pub(crate) fn with_code(n: u16, code: u64) -> Product {
        let mut rest = code;
        let mut q = Product::default();
        for i in 0..n {
            q = q.with_literal(i, (rest % 3) as u8);
            rest /= 3;
        }
        q
    }

    pub(crate) fn with_digits(digits: &[u8]) -> Product {
        let mut q = Product::default();
        for (i, digit) in (0..16u16).zip(digits.iter()) {
            q = q.with_literal(i, *digit);
        }
        q
    }

    // The byte of input i.
    pub(crate) fn digit(self, i: u16) -> u8 {
        if has(self.care, i) {
            u8::from(has(self.value, i))
        } else {
            2
        }
    }

    // The points of the product among the first 16.
    pub(crate) fn points(self) -> u16 {
        let mut set = 0;
        for x in 0..16u16 {
            if (x ^ self.value) & self.care == 0 {
                set |= bit(x);
            }
        }
        set
    }
}

// How many products n inputs have.
pub(crate) fn products_of(n: u16) -> u64 {
    match n {
        2 => 9,
        3 => 27,
        _ => 81,
    }
}
