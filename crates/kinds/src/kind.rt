// The four kinds of a transition.
ghost use Rattle.std.specs.Prelude.{◌≡◌, ◌<◌};
ghost use Rattle.hazard.specs.Sets.{dynamic, start_point};
ghost use Rattle.kinds.specs.Codes.{kind_is, kind_in};

use crate::transition::Transition;
use points::set::PointSet;

// 0 to 0 (static low), 0 to 1 (rise), 1 to 0 (fall), 1 to 1 (static high).
#[derive(Clone, Copy)]
pub enum Kind {
    Low,
    Rise,
    Fall,
    High,
}

// The kind: the values at the two ends, as one number, select it. Both ends have a value.
pub fn kind_of(ones: &PointSet, transition: Transition) -> Kind
    requires { (transition.start < 1024) × (transition.end < 1024) }
    ensures { kind_is result ≡ kind_in ones.now.words transition.start transition.end }
{
    let code = 2 * ones.has(transition.start) as usize + ones.has(transition.end) as usize;
    match code {
        0 => Kind::Low,
        1 => Kind::Rise,
        2 => Kind::Fall,
        _ => Kind::High,
    }
}

// The function changes: a transition of this kind has a privileged cube.
pub fn is_dynamic(k: Kind) -> bool
    ensures { result ≡ dynamic (kind_is k) }
{
    matches!(k, Kind::Rise | Kind::Fall)
}

// The end that the required cubes share with a label, and where a privileged cube starts. A match and not a test for the one kind that
// differs: each kind shows its end.
pub fn start_point(k: Kind, transition: Transition) -> u16
    ensures { result ≡ start_point (kind_is k) transition.start transition.end }
{
    match k {
        Kind::Low => transition.start,
        Kind::Rise => transition.end,
        Kind::Fall => transition.start,
        Kind::High => transition.start,
    }
}
