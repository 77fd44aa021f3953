// The forward choice: products until every required cube lies in one.
ghost use Rattle.std.specs.Prelude.{◌≡◌, ◌*◌, ◌≤◌, length};
ghost use Rattle.hazard.specs.Limits.{most_required};
ghost use Rattle.blocks.specs.Blocks.{stride};
ghost use Rattle.flags.specs.Rows.{Inside};
ghost use Rattle.selection.specs.Choose.{Choice};

use crate::covering::Covering;
use cube::entry::pack;
use flags::first::note;
use flags::flag::flag_product;
use hazard::limits::MOST_REQUIRED;
use refusal::refusal::Refusal;
use rows::whole::whole_into;

impl Covering<'_> {
    // For each required cube whose flag is not set, the product for it is chosen, and those in it are flagged. One that lies in a product
    // cannot block, so the first that blocks is found on the way. The first b words of `uncovered` are the set of those not flagged, and
    // `taken` is room for a set; they are no struct, because a turn lends all three at once. The loop goes by number, because the flags
    // change under it, and m counts products, of which not every turn chooses one.
    pub fn choose(&self, firsts: &mut [u16], products: &mut [u64]) -> Result<usize, Refusal>
        requires ready { (length self.now.required.now ≤ most_required) × (length firsts.old ≡ length self.now.required.now) × (length self.now.required.now ≤ length products.old) }
        requires inside { Inside self.now.context.now.n.count self.now.required.now self.now.columns.now × (length self.now.required.now ≤ 64 * stride self.now.columns.now) }
        ensures { Choice self.now.context.now self.now.required.now firsts.new products.new result }
    {
        // Rounded up by hand, as in the arrays' lengths, where no call may stand.
        let b = (self.required.len() + 63) / 64;
        let mut flags = [false; MOST_REQUIRED];
        let mut uncovered = [0u64; (MOST_REQUIRED + 63) / 64];
        let mut taken = [0u64; (MOST_REQUIRED + 63) / 64];
        whole_into(self.required.len(), &mut uncovered[0..b]);
        let mut m = 0;
        for i in 0..self.required.len() {
            if flags[i] {
                continue;
            }
            let c = self.product_for(&uncovered[0..b], i)?;
            products[m] = pack(0, 0, c);
            flag_product(
                self.context.n,
                self.columns,
                c,
                &mut uncovered[0..b],
                &mut taken[0..b],
                &mut flags,
            );
            note(firsts, &taken[0..b], m as u16);
            m += 1;
        }
        Ok(m)
    }
}
