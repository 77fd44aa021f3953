// Whether a run shows a verdict, straight from the words: at an illegal intersection, and where a required cube of a transition from 1 to 1
// is uncovered.
use crate::calls::{Problem, Shown};
use crate::products::Products;
use crate::replay::Run;
use conditions::fault::Verdict;

impl<'a> Problem<'a> {
    // A and B of transition k. A number past the last transition stands for a single point, which has none.
    fn ends(&self, k: u16) -> Option<(u16, u16)> {
        let place = 2 * usize::from(k);
        let from = *self.transitions.get(place)?;
        let to = *self.transitions.get(place + 1)?;
        Some((from, to))
    }

    fn is_one(&self, x: u16) -> bool {
        self.table.get(usize::from(x)).copied() == Some(1)
    }

    // A and B of the transition whose run shows the verdict, if one does.
    fn ends_of_run(&self, verdict: Verdict) -> Option<(u16, u16)> {
        match verdict {
            Verdict::Intersects { transition, .. } => self.ends(transition),
            Verdict::Uncovered { transition, .. } => {
                let (from, to) = self.ends(transition)?;
                if self.is_one(from) && self.is_one(to) {
                    return Some((from, to));
                }
                None
            }
            _ => None,
        }
    }

    // The run of the wires that were written, if one is due.
    pub(crate) fn run<'b>(&self, network: &'b [u8], shown: Shown<'b>) -> Option<Run<'b>> {
        let (from, to) = self.ends_of_run(shown.verdict)?;
        let network = Products {
            n: self.n,
            bytes: network,
        };
        let wires = shown.wires;
        Some(Run {
            network,
            from,
            to,
            wires,
        })
    }
}
