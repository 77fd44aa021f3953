// Which run shows a fault.
ghost use Rattle.std.specs.Prelude.{◌≡◌, ◌<◌, ℕ};
ghost use Rattle.hazard.specs.Transition.{count};
ghost use Rattle.hazard.specs.Cover.{Network};
ghost use Rattle.hazard.specs.Verdict as spec;
ghost use Rattle.hazard.specs.Pulse.{run_for};
ghost use Rattle.context.specs.Context.{table_in};
ghost use Rattle.context.specs.declared.planes.Planes.{Planes};
ghost use Rattle.conditions.specs.Answer.{verdict_of};
ghost use Rattle.witness.specs.Shows.{witness_of, PulseOf, Ends, Named, Reads};

use conditions::fault::Verdict;
use kinds::kind::{Kind, kind_of};
use kinds::transition::{Transition, transition_at};
use points::set::PointSet;

// A run to be written: of a transition of this kind, for a fault of this product.
#[derive(Clone, Copy)]
pub struct Pulse {
    pub kind: Kind,
    pub product: u16,
    pub ends: Transition,
}

// The run of transition k, for product j. Of the list no more is asked than that its ends are points: `Transitions` would ask more than is read.
fn pulse_at(ones: &PointSet, list: &[u16], j: u16, k: usize) -> Pulse
    requires { Ends list.now × (k < count list.now) }
    ensures { PulseOf ones.now.words list.now j k result }
{
    let ends = transition_at(list, k);
    Pulse {
        kind: kind_of(ones, ends),
        product: j,
        ends,
    }
}

// For an uncovered cube of transition k, if that is one from 1 to 1. A number past the last transition stands for a single point.
fn for_cube(ones: &PointSet, list: &[u16], k: usize) -> Option<Pulse>
    requires { Ends list.now }
    ensures { (planes : Planes) (n : ℕ) → Reads planes n ones.now list.now → (x : ℕ) (net : Network) → witness_of result net ≡ run_for (table_in planes) list.now net (spec.uncovered k x) }
{
    if list.len() / 2 <= k {
        return None;
    }
    let p = pulse_at(ones, list, 0, k);
    let Kind::High = p.kind else {
        return None;
    };
    Some(p)
}

// The run that shows a verdict, if one does.
pub fn witness_for(ones: &PointSet, list: &[u16], v: Verdict) -> Option<Pulse>
    requires { Ends list.now × Named list.now (verdict_of v) }
    ensures { (planes : Planes) (n : ℕ) → Reads planes n ones.now list.now → (net : Network) → witness_of result net ≡ run_for (table_in planes) list.now net (verdict_of v) }
{
    match v {
        Verdict::Passed => None,
        Verdict::HoldsZero { .. } => None,
        Verdict::Intersects {
            product,
            transition,
        } => Some(pulse_at(ones, list, product, transition as usize)),
        Verdict::Uncovered { transition, .. } => for_cube(ones, list, transition as usize),
    }
}
