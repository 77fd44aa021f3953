// The counts as text.
use crate::counts::{Counts, Disagreements, Runs};
use std::fmt;

impl Disagreements {
    fn total(&self) -> u64 {
        [
            self.acceptance,
            self.fields_of_none,
            self.hazard_free_set,
            self.buffer,
            self.hazard,
            self.droppable,
            self.inside,
            self.past_the_end,
            self.not_passed,
            self.out_of_sequence,
            self.verdict,
            self.fields_of_fault,
            self.run,
            self.no_run,
            self.past_the_run,
            self.at_rest,
        ]
        .iter()
        .fold(0, |sum: u64, count| sum.saturating_add(*count))
    }
}

impl fmt::Display for Disagreements {
    fn fmt<W: fmt::Write>(&self, f: &mut fmt::Formatter<W>) -> fmt::Result {
        let d = self;
        writeln!(f, "disagreements {}", d.total())?;
        writeln!(
            f,
            "  refusal {}, fields of none {}, none but a set is hazard-free {}, buffer after a refusal {}",
            d.acceptance, d.fields_of_none, d.hazard_free_set, d.buffer
        )?;
        writeln!(
            f,
            "  network not hazard-free {}, product can be dropped {}, product inside a larger legal one {}, bytes after the last product {}, network not passed {}, product not before the next {}",
            d.hazard, d.droppable, d.inside, d.past_the_end, d.not_passed, d.out_of_sequence
        )?;
        writeln!(
            f,
            "  verdict {}, fields of a fault {}, run {}, wires where no run is due {}, buffer after the wires {}, difference at rest {}",
            d.verdict, d.fields_of_fault, d.run, d.no_run, d.past_the_run, d.at_rest
        )
    }
}

impl fmt::Display for Runs {
    fn fmt<W: fmt::Write>(&self, f: &mut fmt::Formatter<W>) -> fmt::Result {
        let r = self;
        writeln!(
            f,
            "runs replayed: illegal intersection at a rise {}, at a fall {}, uncovered from 1 to 1 {}; without a wire {}, wires of the longest {}",
            r.rise, r.fall, r.one_to_one, r.empty, r.longest
        )
    }
}

impl fmt::Display for Counts {
    fn fmt<W: fmt::Write>(&self, f: &mut fmt::Formatter<W>) -> fmt::Result {
        let c = self;
        writeln!(
            f,
            "minimised {}, of them with 3 or more products {}, with a 1 that no transition visits {}, none {}, refused 6 {}, refused 7 {}",
            c.minimised, c.large, c.unvisited, c.none, c.dont_care, c.function_hazard
        )?;
        writeln!(f, "products dropped {}", c.dropped)?;
        writeln!(
            f,
            "none after 1 step {}, 2 steps {}, 3 steps {}; sets of products tried {}",
            c.steps_1, c.steps_2, c.steps_3, c.sets
        )?;
        writeln!(
            f,
            "verified: refused {}, passed {}, product holds a zero {}, illegal intersection {}, uncovered {}, of them single points {}",
            c.refused, c.passed, c.holds_zero, c.intersects, c.uncovered, c.single_point
        )?;
        writeln!(f, "networks with too many wires to try {}", c.too_wide)?;
        write!(f, "{}", c.runs)?;
        let d = c.differences;
        writeln!(
            f,
            "differences at rest: 1 at a 0 of the table {}, 0 at a 1 {}",
            d.ones, d.zeros
        )?;
        write!(f, "{}", c.disagreements)
    }
}
