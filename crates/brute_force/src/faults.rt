// The fault that the verifier names, and the cube that blocks, straight from their words.
use crate::instance::Instance;
use crate::named::{BLOCKED, HOLDS_ZERO, INTERSECTS, Named, PASSED, UNCOVERED};
use crate::network::Network;
use crate::product::{Product, products_of};
use crate::required::Required;
use crate::set::lowest;

// The first product whose points have such a fault, and what the fault names.
fn first_product<F: Fn(u16) -> Option<u16>>(net: Network, fault: F) -> Option<(u16, u16)>
    requires { F.IsAlwaysCallable fault }
{
    for j in 0..net.count {
        if let Some(named) = fault(net.product(j).points()) {
            return Some((j, named));
        }
    }
    None
}

impl Instance {
    // Whether a product lies strictly inside a legal one.
    pub(crate) fn has_larger(&self, q: Product) -> bool {
        let held = q.points();
        let n = self.table.n;
        (0..products_of(n)).any(|code| {
            let larger = Product::with_code(n, code).points();
            larger != held && larger & held == held && self.is_legal(larger)
        })
    }

    // The first product that contains a 0, and the lowest.
    fn first_zero_held(&self, net: Network) -> Option<Named> {
        let (product, point) = first_product(net, |held| lowest(held & self.table.zeros))?;
        Some(Named {
            number: HOLDS_ZERO,
            product,
            point,
            ..Named::default()
        })
    }

    // The first product with an illegal intersection, and the first transition.
    fn first_intersecting(&self, net: Network) -> Option<Named> {
        let (product, transition) = first_product(
            net,
            |held| self.first_illegal(held).map(|(k, _)| k),
        )?;
        Some(Named {
            number: INTERSECTS,
            product,
            transition,
            ..Named::default()
        })
    }

    // The first required cube that lies in no product.
    fn first_uncovered(&self, net: Network) -> Option<Named> {
        let r = self
            .required
            .iter()
            .find(|r| !net.has_around(r.cube.points()))?;
        Some(Named {
            number: UNCOVERED,
            transition: r.transition,
            point: r.label,
            ..Named::default()
        })
    }

    pub(crate) fn verdict(&self, net: Network) -> Named {
        self.first_zero_held(net)
            .or_else(|| self.first_intersecting(net))
            .or_else(|| self.first_uncovered(net))
            .unwrap_or(Named {
                number: PASSED,
                ..Named::default()
            })
    }

    // The growth of a required cube: if it blocks, the steps and the lowest 0. A start point frees an input, so five turns are enough.
    fn blocked(&self, r: Required) -> Option<Named> {
        let mut q = r.cube;
        for steps in 0..5u16 {
            let held = q.points();
            if let Some(lowest) = lowest(held & self.table.zeros) {
                return Some(Named {
                    number: BLOCKED,
                    transition: r.transition,
                    point: r.label,
                    steps,
                    lowest,
                    ..Named::default()
                });
            }
            let (_, t) = self.first_illegal(held)?;
            q = q.joined(self.table.start_point(t));
        }
        None
    }

    // The first cube that blocks, and how its growth ends.
    pub(crate) fn first_blocked(&self) -> Option<Named> {
        self.required.iter().find_map(|r| self.blocked(*r))
    }
}
