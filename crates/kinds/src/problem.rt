// A problem as checks 1 to 6 leave it.
ghost use Rattle.kinds.specs.Ready.{Ready};

use crate::transitions::Transitions;
use context::planes::Planes;

// The planes of the table, and transitions whose ends all have a value.
#[derive(Clone, Copy)]
pub struct Problem<'a> {
    pub planes: Planes,
    pub transitions: Transitions<'a>,
    ghost ready: { Ready planes transitions.n.count transitions.list.now },
}
