// The verifier's answer as a number.
ghost use Rattle.std.specs.Prelude.{◌≡◌, ◌<◌};
ghost use Rattle.hazard.specs.Verdict as spec;
ghost use Rattle.refusal.specs.Answer.{refusal_of};
ghost use Rattle.conditions.specs.Answer.{verdict_of};
ghost use Rattle.witness.specs.Finding.{found_of, counted_of};
ghost use Rattle.packing.specs.Told.{fields_told};
ghost use Rattle.packing.specs.Packed.{unpacked_verdict, unpacked_wires, FindingFits};

use conditions::fault::Verdict;
use refusal::refusal::Refusal;
use witness::finding::Finding;

// A verdict's number, and all that any verdict names. What a verdict does not name is 0.
#[derive(Clone, Copy)]
struct Fields {
    number: u8,
    // a refusal's number
    refusal: u8,
    product: u16,
    transition: u16,
    // a label or a point
    point: u16,
}

// The fields of a verdict that names nothing.
fn unnamed(number: u8) -> Fields
    ensures { fields_told result ≡ record { number = number; refusal = 0; product = 0; transition = 0; point = 0 } }
{
    Fields {
        number,
        refusal: 0,
        product: 0,
        transition: 0,
        point: 0,
    }
}

// The fields of a verdict on a network that is not refused. A match: each case names fields of its own.
fn fields_of(v: Verdict) -> Fields
    ensures { fields_told result ≡ spec.fields_of (verdict_of v) }
{
    match v {
        Verdict::Passed => unnamed(1),
        Verdict::HoldsZero { product, point } => Fields {
            product,
            point,
            ..unnamed(2)
        },
        Verdict::Intersects {
            product,
            transition,
        } => Fields {
            product,
            transition,
            ..unnamed(3)
        },
        Verdict::Uncovered { transition, label } => Fields {
            transition,
            point: label,
            ..unnamed(4)
        },
    }
}

// The fields of a refusal.
fn fields_of_refusal(r: Refusal) -> Fields
    ensures { fields_told result ≡ spec.fields_of (spec.refused (refusal_of r)) }
{
    let told = r.fields();
    Fields {
        refusal: told.number,
        product: told.product,
        transition: told.transition,
        point: told.point,
        ..unnamed(0)
    }
}

// The fields and the wires in their places.
fn packed(m: Fields, wires: usize) -> u64
    requires { (m.transition < 128) × (m.point < 1024) × (wires < 32768) }
    ensures { (unpacked_verdict result ≡ fields_told m) × (unpacked_wires result ≡ wires) }
{
    let point = u64::from(m.point) + ((wires as u64) << 10);
    let places = u64::from(m.transition) + (point << 7);
    let named = u64::from(m.product) + (places << 16);
    let fields = u64::from(m.refusal) + (named << 8);
    u64::from(m.number) + (fields << 8)
}

// The verifier's answer: a finding, or a refusal.
pub fn packed_verdict(v: Result<Finding, Refusal>) -> u64
    requires { FindingFits (spec.fields_of (found_of v)) (counted_of v) }
    ensures { (unpacked_verdict result ≡ spec.fields_of (found_of v)) × (unpacked_wires result ≡ counted_of v) }
{
    match v {
        Ok(f) => packed(fields_of(f.verdict), f.wires),
        Err(r) => packed(fields_of_refusal(r), 0),
    }
}
