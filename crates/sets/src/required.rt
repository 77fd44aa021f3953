// The required cubes, by their makers: those of a dynamic transition, that of a static one, and single points of a set.
ghost use Rattle.std.specs.Prelude.{◌≡◌, [], ◌∷◌, ◌++◌, map, ◌+◌, ◌^◌, ◌≤◌, ◌<◌, length};
ghost use Rattle.hazard.specs.Search.{those};
ghost use Rattle.hazard.specs.Transition.{count};
ghost use Rattle.hazard.specs.Sets.{maximal_label, single_points, of_transitions};
ghost use Rattle.cube.specs.Entry.{required_in};
ghost use Rattle.cube.specs.PointSet.{in_set};
ghost use Rattle.context.specs.Context.{table_in};
ghost use Rattle.kinds.specs.Codes.{kind_is};
ghost use Rattle.entries.specs.Store.{Stored, required_to};
ghost use Rattle.sets.specs.Held.{Held, required_by};

use context::planes::Planes;
use cube::inputs::Inputs;
use cube::mask::{Cube, span_of};
use entries::required::{store, word_into};
use entries::store::Store;
use kinds::kind::{Kind, kind_of};
use kinds::problem::Problem;
use kinds::transition::Transition;
use moves::turn::last_points;
use points::over::walk_over;
use points::set::PointSet;
use points::steps::steps_of;

// Those of a dynamic transition t, between its start point s and the labels of [S,E], in order of label.
fn dynamic_into(planes: &Planes, t: u16, s: u16, e: u16, out: &mut Store)
    requires ends { (s < 2 ^ planes.now.n.count) × (e < 2 ^ planes.now.n.count) }
    requires room { out.old.next + length (those (maximal_label planes.now.n.count (table_in planes.now) s e) 0 (2 ^ planes.now.n.count)) ≤ 2 ^ 32 }
    ensures same_room { out.new.room.ghost_name ≡ out.old.room.ghost_name }
    ensures stored { Stored planes.now.n.count (required_in planes.now.n.count) out.old.room.now out.new.room.now out.old.next out.new.next (map (required_to planes.now.n.count t s) (those (maximal_label planes.now.n.count (table_in planes.now) s e) 0 (2 ^ planes.now.n.count))) }
{
    for step in steps_of(walk_over(planes.n, span_of(planes.n, s, e))) {
        let labels = last_points(planes.n, &planes.ones, s, e, step);
        word_into(planes.n, t, Some(s), step.word, labels, out);
    }
}

// That of a static transition t from 1 to 1: from its start to its end, which is its label.
fn static_into(n: Inputs, t: u16, ends: Transition, out: &mut Store)
    requires { (ends.start < 2 ^ n.count) × (ends.end < 2 ^ n.count) × (out.old.next < 2 ^ 32) }
    ensures same_room { out.new.room.ghost_name ≡ out.old.room.ghost_name }
    ensures stored { Stored n.count (required_in n.count) out.old.room.now out.new.room.now out.old.next out.new.next (required_to n.count t ends.start ends.end ∷ []) }
{
    store(n, t, ends.start, ends.end, out)
}

// The points of a set, each a required cube of its own, in ascending order, with t for their transition. Its loop is not shared with that of
// the labels: what they read of a step differs, and a closure for it would have a contract longer than the loop.
fn points_into(n: Inputs, t: u16, set: &PointSet, out: &mut Store)
    requires { out.old.next + 1024 ≤ 2 ^ 32 }
    ensures same_room { out.new.room.ghost_name ≡ out.old.room.ghost_name }
    ensures stored { Stored n.count (required_in n.count) out.old.room.now out.new.room.now out.old.next out.new.next (single_points n.count t (in_set set.now.words)) }
{
    for step in steps_of(walk_over(n, Cube { care: 0, value: 0 })) {
        let points = set.points_at(step);
        word_into(n, t, None, step.word, points, out);
    }
}

// Those of transition t, which is of the kind k. A match on the kind: each has a maker of its own, or none.
fn transition_into(planes: &Planes, k: Kind, t: u16, ends: Transition, out: &mut Store)
    requires ends { (ends.start < 2 ^ planes.now.n.count) × (ends.end < 2 ^ planes.now.n.count) }
    requires room { out.old.next + length (required_by planes.now.n.count (table_in planes.now) (kind_is k) t ends.start ends.end) ≤ 2 ^ 32 }
    ensures same_room { out.new.room.ghost_name ≡ out.old.room.ghost_name }
    ensures stored { Stored planes.now.n.count (required_in planes.now.n.count) out.old.room.now out.new.room.now out.old.next out.new.next (required_by planes.now.n.count (table_in planes.now) (kind_is k) t ends.start ends.end) }
{
    match k {
        Kind::Low => {}
        Kind::Rise => dynamic_into(planes, t, ends.end, ends.start, out),
        Kind::Fall => dynamic_into(planes, t, ends.start, ends.end, out),
        Kind::High => static_into(planes.n, t, ends, out),
    }
}

// The required cubes of the transitions, in order of transition and label, and after them the points of the set that is handed in; how
// many. As many are stored as there is room for.
pub fn required_into(problem: &Problem, singles: &PointSet, out: &mut [u64]) -> usize
    ensures { Held problem.now.planes.n.count (required_in problem.now.planes.n.count) out.old out.new result (of_transitions problem.now.planes.n.count (table_in problem.now.planes) problem.now.transitions.list.now ++ single_points problem.now.planes.n.count (count problem.now.transitions.list.now) (in_set singles.now.words)) }
{
    let count = problem.transitions.count();
    let mut store = Store { room: out, next: 0 };
    for t in 0..count {
        let ends = problem.transitions.at(t);
        let kind = kind_of(&problem.planes.ones, ends);
        transition_into(&problem.planes, kind, t as u16, ends, &mut store);
    }
    points_into(problem.planes.n, count as u16, singles, &mut store);
    store.next
}
