// The 1s that no transition visits: each is a required cube of its own.
ghost use Rattle.std.specs.Prelude.{◌≡◌, ℕ, ◌&&◌, ◌^◌, ◌<◌, ltb};
ghost use Rattle.hazard.specs.Transition.{visited};
ghost use Rattle.hazard.specs.Sets.{unvisited};
ghost use Rattle.cube.specs.PointSet.{in_set};
ghost use Rattle.context.specs.Context.{table_in};

use context::planes::Planes;
use cube::mask::span_of;
use kinds::transitions::Transitions;
use points::set::PointSet;

// The points that some transition visits: the union of the cubes [A,B].
fn visited(transitions: Transitions) -> PointSet
    ensures { (x : ℕ) → x < 1024 → in_set result.words x ≡ (visited transitions.entry.n.count transitions.entry.list.now x && ltb x (2 ^ transitions.entry.n.count)) }
{
    let mut set = PointSet::empty();
    for t in 0..transitions.count() {
        let ends = transitions.at(t);
        set.join_cube(transitions.n, span_of(transitions.n, ends.start, ends.end));
    }
    set
}

// What they leave of the ones.
pub fn unvisited(planes: &Planes, transitions: Transitions) -> PointSet
    requires { planes.now.n.count ≡ transitions.n.count }
    ensures { (x : ℕ) → x < 2 ^ planes.now.n.count → in_set result.words x ≡ unvisited planes.now.n.count (table_in planes.now) transitions.entry.list.now x }
{
    let seen = visited(transitions);
    planes.ones.without(&seen)
}
