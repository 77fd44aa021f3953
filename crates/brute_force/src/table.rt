// A table, and what it says of transitions, straight from the words.
ghost use Rattle.std.specs.Prelude.{◌≤◌};

use crate::named::{DONT_CARE, FUNCTION_HAZARD, Named};
use crate::product::Product;
use crate::set::{bit, has};
use crate::transition::Transition;
use std::alloc::{AllocError, Global};

#[derive(Clone, Copy)]
pub struct Table {
    pub n: u16,
    // the points with 0, and those with 1
    pub zeros: u16,
    pub ones: u16,
}

// How many points n inputs have.
fn size_of(n: u16) -> u16
    ensures { (1 ≤ result) × (result ≤ 16) }
{
    match n {
        2 => 4,
        3 => 8,
        _ => 16,
    }
}

impl Table {
    // The table of n inputs whose bytes are the code's digits in base three: points have values as inputs of a product have literals.
    pub(crate) fn with_code(n: u16, code: u64) -> Table {
        let values = Product::with_code(size_of(n), code);
        Table {
            n,
            zeros: values.care ^ values.value,
            ones: values.value,
        }
    }

    pub(crate) fn bytes(&self, alloc: Global) -> Result<Vec<u8>, AllocError> {
        let values = Product {
            care: self.zeros | self.ones,
            value: self.ones,
        };
        (0..size_of(self.n)).map(|x| values.digit(x)).collect(alloc)
    }

    // All points, as a set.
    pub(crate) fn all_points(&self) -> u16 {
        u16::MAX >> (16 - size_of(self.n))
    }

    // A point, from any number.
    pub(crate) fn point_from(&self, x: u64) -> u16 {
        (x % u64::from(size_of(self.n))) as u16
    }

    pub(crate) fn is_one(&self, x: u16) -> bool {
        has(self.ones, x)
    }

    // Whether a transition changes the function.
    pub(crate) fn changes(&self, t: Transition) -> bool {
        self.is_one(t.from) != self.is_one(t.to)
    }

    // The point that a product has to have if it shares one with [A,B].
    pub(crate) fn start_point(&self, t: Transition) -> u16 {
        if self.is_one(t.from) { t.from } else { t.to }
    }

    pub(crate) fn holds_no_zero(&self, q: Product) -> bool {
        q.points() & self.zeros == 0
    }

    // Whether a product with these points shares one with [A,B] of a dynamic transition and lacks the start point.
    pub(crate) fn is_illegal(&self, held: u16, t: Transition) -> bool {
        self.changes(t) && held & t.points() != 0 && !has(held, self.start_point(t))
    }

    // Whether some point one move further than x, towards B, has another value than B.
    fn turns(&self, t: Transition, x: u16) -> bool {
        let last = self.is_one(t.to);
        let still = (t.from ^ t.to) & (15 ^ x ^ t.from);
        (0..4u16).any(|i| has(still, i) && self.is_one(x ^ bit(i)) != last)
    }

    // Whether x, a 1 of [A,B], labels a required cube of the transition.
    pub(crate) fn is_label(&self, t: Transition, x: u16) -> bool {
        match (self.is_one(t.from), self.is_one(t.to)) {
            (false, _) => !self.turns(t.reversed(), x),
            (true, true) => x == t.to,
            (true, false) => !self.turns(t, x),
        }
    }

    // Whether x, a point of [A,B], breaks the rule of the transition's kind.
    fn breaks(&self, t: Transition, x: u16) -> bool {
        let here = self.is_one(x);
        if self.changes(t) {
            here == self.is_one(t.to) && self.turns(t, x)
        } else {
            here != self.is_one(t.to)
        }
    }

    // Check 6 for all transitions, then check 7.
    pub(crate) fn refusal(&self, transitions: &[Transition]) -> Option<Named> {
        let undefined = first_failing(transitions, |_, x| !has(self.zeros | self.ones, x));
        if let Some((transition, point)) = undefined {
            return Some(Named {
                number: DONT_CARE,
                transition,
                point,
                ..Named::default()
            });
        }
        let (transition, point) = first_failing(transitions, |t, x| self.breaks(t, x))?;
        Some(Named {
            number: FUNCTION_HAZARD,
            transition,
            point,
            ..Named::default()
        })
    }
}

// The first transition at a point of whose [A,B] something fails, and the first such point.
fn first_failing<F: Fn(Transition, u16) -> bool>(
    transitions: &[Transition],
    fails: F,
) -> Option<(u16, u16)>
    requires { F.IsAlwaysCallable fails }
{
    for (k, t) in (0..u16::MAX).zip(transitions.iter()) {
        let points = t.points();
        for x in 0..16u16 {
            if has(points, x) && fails(*t, x) {
                return Some((k, x));
            }
        }
    }
    None
}
