// The product that is chosen for a required cube.
ghost use Rattle.std.specs.Prelude.{◌*◌, ◌<◌, T, length, get_or};
ghost use Rattle.cube.specs.Mask.{cube_of, Clean};
ghost use Rattle.rows.specs.Sets.{Fits};
ghost use Rattle.selection.specs.Product.{dhf_in, Over, PrimeOver, MadeFor};

use crate::covering::Covering;
use crate::near::near;
use cube::entry::cube_in;
use cube::mask::{Cube, lies_inside};
use cube::member::Members;
use expand::growth::{Grown, grow};
use expand::prime::{absorbed, expanded};
use refusal::refusal::Refusal;

impl Covering<'_> {
    // The cube grown over required cube k, where that ends legal; nothing to do where it lies inside already.
    fn grown_over(&self, c: Cube, k: usize) -> Cube
        requires { Clean self.now.context.now.n.count c }
        ensures { Over self.now.context.now c result }
    {
        if self.required.len() <= k {
            return c;
        }
        let d = cube_in(self.required[k]);
        if lies_inside(d, c) {
            return c;
        }
        absorbed(self.context, c, d)
    }

    // A dhf-prime around the dhf-implicant c, which was made for required cube i. On the way c is grown over required cubes near it, where
    // that stays legal: those of the same block of 64 that are not covered yet, as `uncovered` tells. That makes for fewer products, and no
    // promise rests on it.
    fn widened(&self, uncovered: &[u64], i: usize, c: Cube) -> Cube
        requires fits { Fits self.now.columns.now uncovered.now × (i < 64 * length uncovered.now) }
        requires dhf { T (dhf_in self.now.context.now c) × Clean self.now.context.now.n.count c }
        ensures { PrimeOver self.now.context.now (cube_of self.now.context.now.n.count c) result }
    {
        let b = i / 64;
        let mut p = c;
        for row in Members::of(uncovered[b] & near(self.context.n, self.columns, b, c)) {
            p = self.grown_over(p, 64 * b + row);
        }
        expanded(self.context, p)
    }

    // Supercube-dhf of required cube i, widened; or refusal 10, where its growth ends blocked. `uncovered` is the set of the required cubes
    // that are not covered.
    pub fn product_for(&self, uncovered: &[u64], i: usize) -> Result<Cube, Refusal>
        requires { (i < length self.now.required.now) × Fits self.now.columns.now uncovered.now × (i < 64 * length uncovered.now) }
        ensures { MadeFor self.now.context.now (get_or self.now.required.now i 0) result }
    {
        let w = self.required[i];
        let cube = cube_in(w);
        let grown = grow(self.context, cube);
        let Grown::Legal(c, _) = grown else {
            return Err(grown.refusal_of(w));
        };
        Ok(self.widened(uncovered, i, c))
    }
}
