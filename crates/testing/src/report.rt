// How the calls' answers are printed.
use crate::calls::{Problem, Shown};
use crate::replay::Run;
use conditions::fault::Verdict;
use refusal::fields::Fields;
use refusal::refusal::Refusal;
use std::fmt;

// The refusal's number and fields.
#[derive(Clone, Copy)]
pub struct RefusalText(pub Refusal);

impl fmt::Display for RefusalText {
    fn fmt<W: fmt::Write>(&self, f: &mut fmt::Formatter<W>) -> fmt::Result {
        let Fields {
            number,
            transition,
            point,
            steps,
            lowest,
            product,
        } = self.0.fields();
        write!(
            f,
            "refused {number} {transition} {point} {steps} {lowest} {product}"
        )
    }
}

// The verdict's number by document 01, and the fields that it names.
#[derive(Clone, Copy)]
struct VerdictText(Verdict);

impl fmt::Display for VerdictText {
    fn fmt<W: fmt::Write>(&self, f: &mut fmt::Formatter<W>) -> fmt::Result {
        // Each case has a line of its own: a match is the plainest table of them.
        match self.0 {
            Verdict::Passed => write!(f, "1 passed"),
            Verdict::HoldsZero { product, point } => write!(
                f,
                "2 product, point: {product} {point}"
            ),
            Verdict::Intersects {
                product,
                transition,
            } => write!(f, "3 product, transition: {product} {transition}"),
            Verdict::Uncovered { transition, label } => write!(
                f,
                "4 transition, label: {transition} {label}"
            ),
        }
    }
}

// The verdict on a network, with the run if one is due. Wires where no run is due stand after WIRES.
#[derive(Clone, Copy)]
pub struct ShownText<'a> {
    shown: Shown<'a>,
    run: Option<Run<'a>>,
}

impl<'a> Problem<'a> {
    pub fn text<'b>(&self, network: &'b [u8], shown: Shown<'b>) -> ShownText<'b> {
        let run = self.run(network, shown);
        ShownText { shown, run }
    }
}

impl<'a> fmt::Display for ShownText<'a> {
    fn fmt<W: fmt::Write>(&self, f: &mut fmt::Formatter<W>) -> fmt::Result {
        let verdict = VerdictText(self.shown.verdict);
        write!(f, "{verdict}")?;
        if let Some(run) = self.run {
            return write!(f, ", {run}");
        }
        if self.shown.count == 0 {
            return Ok(());
        }
        let wires = self.shown.wires;
        write!(f, ", WIRES{wires}")
    }
}
