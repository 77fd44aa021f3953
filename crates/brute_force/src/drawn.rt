// Seeded tables, transitions, products and networks.
use crate::draw::{Draws, next, short};
use crate::instance::Instance;
use crate::network::{Network, spread};
use crate::product::Product;
use crate::set::bit;
use crate::table::Table;
use crate::transition::Transition;
use std::alloc::{AllocError, Global};

// The points of three seeded products.
fn drawn_union(n: u16, seed: u64) -> u16 {
    let mut set = 0;
    for s in Draws(seed).take(3) {
        set |= Product::with_code(n, s / 16).points();
    }
    set
}

impl Table {
    // Seeded: free bytes; free bytes with the don't cares made 1 or 0; or a union of products, with or without don't cares.
    fn drawn(n: u16, seed: u64) -> Table {
        let free = Table::with_code(n, seed / 8);
        let whole = free.all_points();
        let set = drawn_union(n, seed) & whole;
        let known = whole ^ (short(seed / 65536) & free.zeros);
        let (zeros, ones) = match seed % 8 {
            0 | 1 => (free.zeros, free.ones),
            2 => (free.zeros, whole ^ free.zeros),
            3 => (whole ^ free.ones, free.ones),
            4 | 5 => (whole ^ set, set),
            _ => ((whole ^ set) & known, set & known),
        };
        Table { n, zeros, ones }
    }

    // A seeded transition: the first of some that is accepted alone, at first only one that is dynamic and moves at least so many inputs;
    // at times any.
    fn drawn_transition(&self, seed: u64, least: u32) -> Transition {
        let any = seed / 1024 % 32 == 0;
        let mut t = Transition { from: 0, to: 0 };
        for (i, s) in (0..32u64).zip(Draws(seed)) {
            t = Transition {
                from: self.point_from(s / 16),
                to: self.point_from(s / 256),
            };
            let is_far = 16 <= i || least <= t.width() && self.changes(t);
            if any || is_far && self.refusal(&[t]).is_none() {
                return t;
            }
        }
        t
    }

    // A seeded product: the first of some that contains no 0, else the last.
    pub(crate) fn drawn_implicant(&self, seed: u64) -> Product {
        let mut q = Product::default();
        for s in Draws(seed).take(16) {
            q = Product::with_code(self.n, s / 16);
            if self.holds_no_zero(q) {
                return q;
            }
        }
        q
    }
}

impl Instance {
    // A seeded table with 1 to `most` seeded transitions.
    pub(crate) fn drawn(
        alloc: Global,
        n: u16,
        most: usize,
        seed: u64,
    ) -> Result<Instance, AllocError> {
        let first = next(seed);
        let table = Table::drawn(n, first);
        let least = (seed / 4096 % 3) as u32;
        let mut transitions = Vec::new(alloc);
        for s in Draws(first).take(most) {
            transitions.push(table.drawn_transition(s, least))?;
            if s / 4096 % 12 == 0 {
                break;
            }
        }
        Instance::new(alloc, table, transitions)
    }
}

impl Network {
    // A network of seeded products.
    pub(crate) fn drawn<F: Fn(u64) -> Product>(count: usize, seed: u64, product: F) -> Network
        requires { F.IsAlwaysCallable product }
    {
        let mut net = Network::default();
        for s in Draws(seed).take(count) {
            net = net.with(product(s));
        }
        net
    }

    // The network with one literal of its n inputs put in, taken out, or inverted.
    pub(crate) fn changed(self, n: u16, seed: u64) -> Network {
        if n == 0 || self.count == 0 {
            return self;
        }
        let input = short(seed / 16 % u64::from(n));
        let product = seed / 256 % u64::from(self.count) % 16;
        let place = spread(bit(input)) & (15 << (4 * product));
        if seed % 2 == 0 {
            Network {
                care: self.care ^ place,
                ..self
            }
        } else {
            Network {
                value: self.value ^ place,
                ..self
            }
        }
    }
}
