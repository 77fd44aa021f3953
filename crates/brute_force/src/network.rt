// Networks of at most 16 products of at most four inputs. A nibble stands for a product, input 0 in its lowest bit. They are
// words and no lists, so that all products give their output at once: millions of networks are tried.
use crate::product::Product;
use std::alloc::{AllocError, Global};
use testing::products::Products;

#[derive(Clone, Copy, Default)]
pub struct Network {
    pub care: u64,
    pub value: u64,
    // the lowest bit of each product's nibble
    pub present: u64,
    pub count: u16,
}

// The nibble x at each product.
pub(crate) fn spread(x: u16) -> u64 {
    u64::from(x % 16) * 0x1111_1111_1111_1111
}

// The nibble j of a word; 0 past the last.
fn nibble(word: u64, j: u16) -> u16 {
    if j < 16 {
        ((word >> (j * 4)) % 16) as u16
    } else {
        0
    }
}

impl Network {
    // The output where each literal sees the point a, but for the wires that have moved and show the other value.
    pub(crate) fn output(&self, a: u16, moved: u64) -> bool {
        let failing = (spread(a) ^ moved ^ self.value) & self.care;
        let some = failing | (failing >> 1) | (failing >> 2) | (failing >> 3);
        some & self.present != self.present
    }

    // The network with a product more; a full one stays.
    pub(crate) fn with(self, q: Product) -> Network {
        let count = self.count;
        if 16 <= count {
            return self;
        }
        let s = count * 4;
        Network {
            care: self.care | (u64::from(q.care) << s),
            value: self.value | (u64::from(q.value) << s),
            present: self.present | (1 << s),
            count: count + 1,
        }
    }

    pub(crate) fn product(&self, j: u16) -> Product {
        Product {
            care: nibble(self.care, j),
            value: nibble(self.value, j),
        }
    }

    // The network without its product j.
    pub(crate) fn without(&self, j: u16) -> Network {
        let mut rest = Network::default();
        for i in 0..self.count {
            if i != j {
                rest = rest.with(self.product(i));
            }
        }
        rest
    }

    // Whether one product contains all points of the set.
    pub(crate) fn has_around(&self, set: u16) -> bool {
        (0..self.count).any(|j| self.product(j).points() & set == set)
    }

    // The bytes of the products, n each.
    pub(crate) fn bytes(&self, alloc: Global, n: u16) -> Result<Vec<u8>, AllocError> {
        let mut bytes = Vec::new(alloc);
        for j in 0..self.count {
            let q = self.product(j);
            for i in 0..n {
                bytes.push(q.digit(i))?;
            }
        }
        Ok(bytes)
    }
}

impl<'a> From<Products<'a>> for Network {
    // At most 16 of the products.
    fn from(products: Products<'a>) -> Network {
        let mut net = Network::default();
        if products.n == 0 {
            return net;
        }
        for digits in products.bytes.chunks_exact(products.n) {
            net = net.with(Product::with_digits(digits));
        }
        net
    }
}
