// The privileged cubes, stored as words, in order of transition.
ghost use Rattle.std.specs.Prelude.{◌≡◌, cond, [], ◌∷◌, ◌≤◌, ◌<◌, ◌^◌, length};
ghost use Rattle.hazard.specs.Sets.{dynamic, privileged};
ghost use Rattle.cube.specs.Entry.{privileged_in};
ghost use Rattle.context.specs.Context.{table_in};
ghost use Rattle.kinds.specs.Codes.{kind_is};
ghost use Rattle.entries.specs.Store.{Stored};
ghost use Rattle.sets.specs.Held.{Held, privileged_by};

use cube::entry::pack;
use cube::inputs::Inputs;
use cube::mask::span_of;
use entries::store::Store;
use kinds::kind::{Kind, is_dynamic, kind_of, start_point};
use kinds::problem::Problem;
use kinds::transition::Transition;

// The privileged cube of transition t, which is of the kind k, stored where it is dynamic.
fn store_privileged(n: Inputs, k: Kind, t: u16, ends: Transition, out: &mut Store)
    requires { (ends.start < 2 ^ n.count) × (ends.end < 2 ^ n.count) × (out.old.next < 2 ^ 32) }
    ensures same_room { out.new.room.ghost_name ≡ out.old.room.ghost_name }
    ensures stored { Stored n.count (privileged_in n.count) out.old.room.now out.new.room.now out.old.next out.new.next (cond (dynamic (kind_is k)) (privileged_by n.count (kind_is k) t ends.start ends.end ∷ []) []) }
{
    if is_dynamic(k) {
        out.push(pack(t, start_point(k, ends), span_of(n, ends.start, ends.end)));
    }
}

// The privileged cubes; how many, at most one for each transition.
pub fn privileged_into(problem: &Problem, out: &mut [u64]) -> usize
    requires { 64 ≤ length out.old }
    ensures { (result ≤ 64) × Held problem.now.planes.n.count (privileged_in problem.now.planes.n.count) out.old out.new result (privileged problem.now.planes.n.count (table_in problem.now.planes) problem.now.transitions.list.now) }
{
    let mut store = Store { room: out, next: 0 };
    for t in 0..problem.transitions.count() {
        let ends = problem.transitions.at(t);
        let kind = kind_of(&problem.planes.ones, ends);
        store_privileged(problem.planes.n, kind, t as u16, ends, &mut store);
    }
    store.next
}
