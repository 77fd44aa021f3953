// The verifier against the counterpart.
use crate::counts::{add, expect};
use crate::named::{HOLDS_ZERO, INTERSECTS, Named, PASSED, UNCOVERED};
use crate::network::Network;
use crate::trial::Trial;
use std::alloc::AllocError;
use testing::marks::{WIRE_MARK, are_wires_marked};

// The numbers of a wire buffer: as many as 16 products of four inputs ask for.
const ROOM: usize = 128;

impl Trial {
    // A match is the plainest table of cases and counts.
    fn add_verdict(&mut self, v: Named) {
        let counts = &mut self.counts;
        match v.number {
            PASSED => add(&mut counts.passed),
            HOLDS_ZERO => add(&mut counts.holds_zero),
            INTERSECTS => add(&mut counts.intersects),
            UNCOVERED => {
                add(&mut counts.uncovered);
                if usize::from(v.transition) == self.instance.transitions.len() {
                    add(&mut counts.single_point);
                }
            }
            _ => {}
        }
    }

    fn compare(&mut self, net: Network, v: Named) {
        self.add_verdict(v);
        let same = self.instance.verdict(net) == v;
        expect(&mut self.counts.disagreements.fields_of_fault, same);
        let same = self.is_as_expected(net, v.number == PASSED);
        expect(&mut self.counts.disagreements.verdict, same);
    }

    // A network through the verifier, which does not refuse it.
    pub(crate) fn verifies(&mut self, net: Network) -> Result<(), AllocError> {
        let bytes = net.bytes(self.alloc, self.instance.table.n)?;
        let mut wires = [WIRE_MARK; ROOM];
        let answer = self.instance.problem().verified(&bytes, &mut wires);
        match answer {
            Ok(shown) => {
                let v = Named::from(shown.verdict);
                self.compare(net, v);
                self.expect_shown(net, v, shown);
            }
            Err(_) => add(&mut self.counts.disagreements.verdict),
        }
        Ok(())
    }

    // The verifier passes what the minimiser wrote, and writes no wire.
    pub(crate) fn passes(&mut self, bytes: &[u8]) {
        let mut wires = [WIRE_MARK; ROOM];
        let answer = self.instance.problem().verified(bytes, &mut wires);
        match answer {
            Ok(shown) => {
                let passed = Named::from(shown.verdict).number == PASSED;
                expect(&mut self.counts.disagreements.not_passed, passed);
                expect(&mut self.counts.disagreements.no_run, shown.count == 0);
            }
            Err(_) => add(&mut self.counts.disagreements.not_passed),
        }
        let kept = are_wires_marked(&wires);
        expect(&mut self.counts.disagreements.past_the_run, kept);
    }

    // The verifier refuses what the minimiser refuses by check 6 or 7, and writes no wire.
    pub(crate) fn declines(&mut self, own: Option<Named>) {
        add(&mut self.counts.refused);
        let mut wires = [WIRE_MARK; ROOM];
        let refusal = self.instance.problem().verified(&[], &mut wires).err();
        let same = refusal.map(Named::from) == own;
        expect(&mut self.counts.disagreements.acceptance, same);
        let kept = are_wires_marked(&wires);
        expect(&mut self.counts.disagreements.past_the_run, kept);
    }
}
