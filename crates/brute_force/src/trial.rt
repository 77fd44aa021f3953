// An instance on its way through both calls, and what is counted of it and of those before.
use crate::counts::{Counts, add};
use crate::instance::Instance;
use crate::network::Network;
use crate::wires::Found;
use std::alloc::Global;

#[derive(Drop)]
pub struct Trial {
    pub alloc: Global,
    pub instance: Instance,
    pub counts: Counts,
}

impl Trial {
    // Whether the network is hazard-free or not, as is expected of it. One with too many wires to try is as expected.
    pub(crate) fn is_as_expected(&mut self, net: Network, hazard_free: bool) -> bool {
        let found = self.instance.found_of(net, self.instance.table.ones);
        match found {
            Found::HazardFree => hazard_free,
            Found::Hazard => !hazard_free,
            Found::TooWide => {
                add(&mut self.counts.too_wide);
                true
            }
        }
    }
}
