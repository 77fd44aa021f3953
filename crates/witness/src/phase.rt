// In which of three phases a wire moves.
ghost use Rattle.std.specs.Prelude.{◌≡◌, ◌<◌, eqb};
ghost use Rattle.hazard.specs.Cube.{bit};
ghost use Rattle.hazard.specs.Pulse.{phase};
ghost use Rattle.kinds.specs.Codes.{kind_is};
ghost use Rattle.witness.specs.Phase.{moves};

use crate::pulse::Pulse;
use cube::point::bit_of;
use kinds::kind::Kind;

// The phase, a number, since runs are written in the order 0, 1, 2: by the kind of the transition, by whether the wire's product is the
// named one, and by whether its literal has B's value.
fn phase_of(kind: Kind, named: bool, late: bool) -> u8
    ensures { result ≡ phase (kind_is kind) named late }
{
    match (kind, named, late) {
        (Kind::Low, _, _) => 0,
        (Kind::Rise, true, false) => 1,
        (Kind::Rise, true, true) => 0,
        (Kind::Rise, false, _) => 2,
        (Kind::Fall, true, false) => 2,
        (Kind::Fall, true, true) => 1,
        (Kind::Fall, false, _) => 0,
        (Kind::High, _, false) => 0,
        (Kind::High, _, true) => 1,
    }
}

// The byte d, of input i in product m, has a wire that moves in phase q: it is a literal, its input moves, and the phase is the wire's.
pub fn moves_in(p: Pulse, q: u8, m: u16, i: usize, d: u8) -> bool
    requires { i < 16 }
    ensures { result ≡ moves (kind_is p.kind) (eqb m p.product) q d (bit p.ends.start i) (bit p.ends.end i) }
{
    let last = bit_of(p.ends.end, i);
    d != 2
        && bit_of(p.ends.start, i) != last
        && phase_of(p.kind, m == p.product, d as u16 == last) == q
}
