// Required cubes as packed words, stored one after another.
ghost use Rattle.std.specs.Prelude.{◌≡◌, [], ◌∷◌, map, ℕ, ◌+◌, ◌^◌, ◌≤◌, ◌<◌, length};
ghost use Rattle.std.specs.Option.{unwrap_or};
ghost use Rattle.cube.specs.Entry.{required_in};
ghost use Rattle.points.specs.PointWord.{points_in, Below};
ghost use Rattle.entries.specs.Store.{Stored, required_to, required_at};

use crate::store::Store;
use cube::entry::pack;
use cube::inputs::Inputs;
use cube::mask::span_of;
use points::word::points_of;

// The required cube of transition t between s and the label x, stored. The transition's number is no part of the store, which holds the cubes
// of many.
pub fn store(n: Inputs, t: u16, s: u16, x: u16, out: &mut Store)
    requires { (s < 2 ^ n.count) × (x < 2 ^ n.count) × (out.old.next < 2 ^ 32) }
    ensures same_room { out.new.room.ghost_name ≡ out.old.room.ghost_name }
    ensures stored { Stored n.count (required_in n.count) out.old.room.now out.new.room.now out.old.next out.new.next (required_to n.count t s x ∷ []) }
{
    out.push(pack(t, x, span_of(n, s, x)));
}

// The required cubes of the labels that are the bits of `labels` in word w. Opposite its label each has the corner, a point that all cubes
// of the transition share, or where there is none the label itself.
pub fn word_into(n: Inputs, t: u16, corner: Option<u16>, w: usize, labels: u64, out: &mut Store)
    requires points { (w < 16) × Below (2 ^ n.count) w labels × ((x : ℕ) → x < 2 ^ n.count → unwrap_or corner x < 2 ^ n.count) }
    requires room { out.old.next + length (points_in w labels) ≤ 2 ^ 32 }
    ensures same_room { out.new.room.ghost_name ≡ out.old.room.ghost_name }
    ensures stored { Stored n.count (required_in n.count) out.old.room.now out.new.room.now out.old.next out.new.next (map (required_at n.count t corner) (points_in w labels)) }
{
    for label in points_of(w, labels) {
        store(n, t, corner.unwrap_or(label), label, out);
    }
}
