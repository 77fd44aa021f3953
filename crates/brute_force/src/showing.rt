// What shows a fault: a run that is not allowed, or that table and network differ at rest.
use crate::counts::{add, expect};
use crate::instance::Instance;
use crate::named::{HOLDS_ZERO, INTERSECTS, Named, UNCOVERED};
use crate::network::Network;
use crate::set::has;
use crate::transition::Transition;
use crate::trial::Trial;
use testing::calls::Shown;
use testing::marks::are_wires_marked;
use testing::wires::Wires;

// What has to show a fault.
#[derive(Clone, Copy)]
enum Due {
    // a run of this transition
    Run(Transition),
    // that the network gives 1 at a 0 of the table
    One { zero: u16 },
    // that the network gives 0 at a 1 of the table
    Zero { one: u16 },
}

impl Instance {
    fn is_one_to_one(&self, t: Transition) -> bool {
        self.table.is_one(t.from) && self.table.is_one(t.to)
    }

    // Nothing shows that a network passes.
    fn due(&self, v: Named) -> Option<Due> {
        let transition = self.transition(v.transition);
        match v.number {
            HOLDS_ZERO => Some(Due::One { zero: v.point }),
            INTERSECTS => transition.map(Due::Run),
            UNCOVERED => match transition {
                Some(t) if self.is_one_to_one(t) => Some(Due::Run(t)),
                _ => Some(Due::Zero { one: v.point }),
            },
            _ => None,
        }
    }
}

impl Trial {
    fn add_run(&mut self, t: Transition, wires: u64) {
        let table = self.instance.table;
        let runs = &mut self.counts.runs;
        match (table.is_one(t.from), table.is_one(t.to)) {
            (false, true) => add(&mut runs.rise),
            (true, false) => add(&mut runs.fall),
            (true, true) => add(&mut runs.one_to_one),
            (false, false) => {}
        }
        if wires == 0 {
            add(&mut runs.empty);
        }
        runs.longest = runs.longest.max(wires);
    }

    // A run of the transition that is not allowed.
    fn expect_run(&mut self, net: Network, t: Transition, shown: Shown<'_>) {
        let Wires(run) = shown.wires;
        self.add_run(t, run.len() as u64);
        let all_read = run.len() == shown.count;
        let wrong = self.instance.moves(net, t).is_wrong_run(shown.wires);
        expect(&mut self.counts.disagreements.run, all_read && wrong);
    }

    // A 0 of the table at which the network gives 1.
    fn expect_one(&mut self, net: Network, zero: u16) {
        add(&mut self.counts.differences.ones);
        let differs = has(self.instance.table.zeros, zero) && net.output(zero, 0);
        expect(&mut self.counts.disagreements.at_rest, differs);
    }

    // A 1 of the table at which the network gives 0.
    fn expect_zero(&mut self, net: Network, one: u16) {
        add(&mut self.counts.differences.zeros);
        let differs = has(self.instance.table.ones, one) && !net.output(one, 0);
        expect(&mut self.counts.disagreements.at_rest, differs);
    }

    // What shows the fault, no wire where it is no run, and the rest of the buffer as it was.
    pub(crate) fn expect_shown(&mut self, net: Network, v: Named, shown: Shown<'_>) {
        let due = self.instance.due(v);
        match due {
            Some(Due::Run(t)) => self.expect_run(net, t, shown),
            Some(Due::One { zero }) => self.expect_one(net, zero),
            Some(Due::Zero { one }) => self.expect_zero(net, one),
            None => {}
        }
        let none_asked = shown.count == 0 || matches!(due, Some(Due::Run(_)));
        expect(&mut self.counts.disagreements.no_run, none_asked);
        let kept = are_wires_marked(shown.rest);
        expect(&mut self.counts.disagreements.past_the_run, kept);
    }
}
