// Instances and networks through both calls: all of two inputs, all tables of three, and seeded samples.
use crate::counts::Counts;
use crate::draw::{Draws, next};
use crate::instance::Instance;
use crate::minimising::Answer;
use crate::network::Network;
use crate::product::Product;
use crate::set::has;
use crate::trial::Trial;
use std::alloc::{AllocError, Global};

// The network of those products of two inputs whose codes are in the set.
fn network_of_set(set: u16) -> Network {
    let mut net = Network::default();
    for code in 0..9u16 {
        if has(set, code) {
            net = net.with(Product::with_code(2, u64::from(code)));
        }
    }
    net
}

impl Trial {
    // An instance of two inputs through both calls, the verifier with every set of products.
    fn tries_all(&mut self) -> Result<(), AllocError> {
        if let Answer::Refused = self.minimises()? {
            return Ok(());
        }
        for set in 0..512u16 {
            self.verifies(network_of_set(set))?;
        }
        Ok(())
    }

    // Seeded networks of up to four products.
    fn verifies_drawn(&mut self, seed: u64) -> Result<(), AllocError> {
        let few = (seed / 16 % 5) as usize;
        let table = self.instance.table;
        self.verifies(Network::drawn(few, seed, |s| Product::with_code(table.n, s / 16)))?;
        self.verifies(Network::drawn(few, next(seed), |s| table.drawn_implicant(s)))
    }

    // The networks with one product less.
    fn verifies_less(&mut self, net: Network, more: Network, seed: u64) -> Result<(), AllocError> {
        if net.count == 0 {
            return Ok(());
        }
        let j = (seed / 16 % u64::from(net.count)) as u16;
        self.verifies(net.without(j))?;
        self.verifies(more.without(j))
    }

    // Networks near the minimiser's: with a product more or less, or another literal.
    fn verifies_near(&mut self, net: Network, seed: u64) -> Result<(), AllocError> {
        let table = self.instance.table;
        let more = net.with(table.drawn_implicant(seed));
        let s = seed / 65536;
        self.verifies(more)?;
        self.verifies(net.changed(table.n, s))?;
        self.verifies(more.changed(table.n, s))?;
        self.verifies_less(net, more, seed)
    }

    // An instance through both calls.
    fn tries(&mut self, seed: u64) -> Result<(), AllocError> {
        let answer = self.minimises()?;
        match answer {
            Answer::Refused => Ok(()),
            Answer::None => self.verifies_drawn(seed),
            Answer::Made(net) => {
                self.verifies_drawn(seed)?;
                self.verifies_near(net, seed)
            }
        }
    }
}

// The instances of two inputs with these numbers.
pub(crate) fn all_of_two<F: Fn(u64) -> Result<Instance, AllocError>>(
    alloc: Global,
    count: u64,
    instance: F,
) -> Result<Counts, AllocError>
    requires { F.IsAlwaysCallable instance }
{
    let mut counts = Counts::default();
    for i in 0..count {
        let instance = instance(i)?;
        let mut trial = Trial {
            alloc,
            instance,
            counts,
        };
        trial.tries_all()?;
        counts = trial.counts;
    }
    Ok(counts)
}

// So many instances, by their numbers and what is drawn for each, with seeded networks.
pub(crate) fn sample<F: Fn(u64, u64) -> Result<Instance, AllocError>>(
    alloc: Global,
    count: u64,
    seed: u64,
    instance: F,
) -> Result<Counts, AllocError>
    requires { F.IsAlwaysCallable instance }
{
    let mut counts = Counts::default();
    for (i, s) in (0..count).zip(Draws(seed)) {
        let instance = instance(i, s)?;
        let mut trial = Trial {
            alloc,
            instance,
            counts,
        };
        trial.tries(s)?;
        counts = trial.counts;
    }
    Ok(counts)
}
