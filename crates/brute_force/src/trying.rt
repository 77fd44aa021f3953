// No network: by trying sets of products that contain no 0. Nothing is asked at the 1s that no transition visits: that small sets miss one
// there would show nothing.
use crate::counts::add;
use crate::network::Network;
use crate::product::{Product, products_of};
use crate::trial::Trial;
use crate::wires::Found;
use std::alloc::AllocError;

impl Trial {
    fn is_hazard_free(&mut self, net: Network) -> bool {
        add(&mut self.counts.sets);
        let due = self.instance.table.ones & self.instance.visited;
        self.instance.found_of(net, due) == Found::HazardFree
    }

    // Whether the network is hazard-free with 1 to `most` of these products more.
    fn with_more(&mut self, net: Network, products: &[Product], most: u64) -> bool {
        if most == 0 {
            return false;
        }
        for (i, q) in products.iter().enumerate() {
            let more = net.with(*q);
            if self.is_hazard_free(more) {
                return true;
            }
            if self.with_more(more, &products[i + 1..], most - 1) {
                return true;
            }
        }
        false
    }

    // Whether some set of up to three products is hazard-free, and of up to four where there are three inputs.
    pub(crate) fn some_hazard_free(&mut self) -> Result<bool, AllocError> {
        if self.is_hazard_free(Network::default()) {
            return Ok(true);
        }
        let table = self.instance.table;
        let implicants: Vec<Product> = (0..products_of(table.n))
            .map(|code| Product::with_code(table.n, code))
            .filter(|q| table.holds_no_zero(*q))
            .collect(self.alloc)?;
        let most = if table.n == 3 { 4 } else { 3 };
        Ok(self.with_more(Network::default(), &implicants, most))
    }
}
