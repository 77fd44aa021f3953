// The minimiser against the counterpart.
use crate::counts::{add, expect};
use crate::named::{BLOCKED, DONT_CARE, FUNCTION_HAZARD, Named};
use crate::network::Network;
use crate::trial::Trial;
use std::alloc::AllocError;
use testing::calls::Written;
use testing::marks::{MARK, is_marked};

// Which way an instance went.
#[derive(Clone, Copy)]
pub enum Answer {
    Refused,
    None,
    Made(Network),
}

impl Trial {
    // Without any one product the network is not hazard-free, and none lies inside a larger legal one.
    fn drops(&mut self, net: Network) {
        for j in 0..net.count {
            let largest = !self.instance.has_larger(net.product(j));
            expect(&mut self.counts.disagreements.inside, largest);
            add(&mut self.counts.dropped);
            let needed = self.is_as_expected(net.without(j), false);
            expect(&mut self.counts.disagreements.droppable, needed);
        }
    }

    // A problem that is not refused, by the counterpart either.
    fn accepted(&mut self) {
        let accepted = self.instance.refusal().is_none();
        expect(&mut self.counts.disagreements.acceptance, accepted);
    }

    // A hazard-free network, in which each product is needed and as large as can be.
    fn minimal(&mut self, net: Network, count: usize) {
        add(&mut self.counts.minimised);
        if 3 <= count {
            add(&mut self.counts.large);
        }
        if self.instance.unvisited() != 0 {
            add(&mut self.counts.unvisited);
        }
        self.accepted();
        let all_read = usize::from(net.count) == count;
        expect(&mut self.counts.disagreements.hazard, all_read);
        let hazard_free = self.is_as_expected(net, true);
        expect(&mut self.counts.disagreements.hazard, hazard_free);
        self.drops(net);
    }

    // What the minimiser wrote: a minimal network in sequence that the verifier passes, and no byte more.
    fn made(&mut self, written: Written<'_>) -> Network {
        let Written {
            count,
            products,
            rest,
        } = written;
        let net = Network::from(products);
        self.minimal(net, count);
        expect(&mut self.counts.disagreements.past_the_end, is_marked(rest));
        self.passes(products.bytes);
        let in_sequence = products.in_sequence();
        expect(&mut self.counts.disagreements.out_of_sequence, in_sequence);
        net
    }

    fn add_steps(&mut self, steps: u16) {
        match steps {
            1 => add(&mut self.counts.steps_1),
            2 => add(&mut self.counts.steps_2),
            3 => add(&mut self.counts.steps_3),
            _ => {}
        }
    }

    // A cube blocks: no set of products is hazard-free, even if nothing is asked at the 1s that no transition visits, and the fields name
    // the first that blocks.
    fn none(&mut self, r: Named) -> Result<(), AllocError> {
        add(&mut self.counts.none);
        self.accepted();
        let same = self.instance.first_blocked() == Some(r);
        expect(&mut self.counts.disagreements.fields_of_none, same);
        let found = self.some_hazard_free()?;
        expect(&mut self.counts.disagreements.hazard_free_set, !found);
        Ok(())
    }

    // A refusal by check 6 or 7, as the counterpart has it, and by both calls.
    fn declined(&mut self, r: Named) {
        let own = self.instance.refusal();
        expect(&mut self.counts.disagreements.acceptance, own == Some(r));
        self.declines(own);
    }

    // A refusal, after which the buffer is as it was.
    fn without_network(&mut self, r: Named, cover: &[u8]) -> Result<Answer, AllocError> {
        expect(&mut self.counts.disagreements.buffer, is_marked(cover));
        match r.number {
            BLOCKED => {
                self.add_steps(r.steps);
                self.none(r)?;
                return Ok(Answer::None);
            }
            DONT_CARE => add(&mut self.counts.dont_care),
            FUNCTION_HAZARD => add(&mut self.counts.function_hazard),
            _ => {}
        }
        self.declined(r);
        Ok(Answer::Refused)
    }

    // The instance through the minimiser.
    pub(crate) fn minimises(&mut self) -> Result<Answer, AllocError> {
        let mut cover = [MARK; 256];
        let answer = self.instance.problem().minimised(&mut cover);
        match answer {
            Ok(written) => Ok(Answer::Made(self.made(written))),
            Err(r) => self.without_network(Named::from(r), &cover),
        }
    }
}
