// A refusal's number and fields.
ghost use Rattle.std.specs.Prelude.{◌≡◌};
ghost use Rattle.hazard.specs.Refusal as spec;
ghost use Rattle.refusal.specs.Answer.{refusal_of, told_by};

use crate::refusal::Refusal;

// The number of a refusal, and all that any refusal names. What a refusal does not name is 0.
#[derive(Clone, Copy)]
pub struct Fields {
    pub number: u8,
    pub transition: u16,
    // a label or a point
    pub point: u16,
    pub steps: u16,
    // the lowest zero
    pub lowest: u16,
    pub product: u16,
}

// With a number, a transition and a point.
fn named(number: u8, transition: u16, point: u16) -> Fields
    ensures { told_by result ≡ spec.refusal number transition point }
{
    Fields {
        number,
        transition,
        point,
        steps: 0,
        lowest: 0,
        product: 0,
    }
}

// With a transition and a label, and the steps of a growth and the zero that it ends at.
fn blocked(transition: u16, label: u16, steps: u16, lowest: u16) -> Fields
    ensures { told_by result ≡ spec.growth_refusal 10 transition label steps lowest }
{
    Fields {
        steps,
        lowest,
        ..named(10, transition, label)
    }
}

impl Refusal {
    // What is printed or packed of a refusal. A match: each case names fields of its own.
    pub fn fields(self) -> Fields
        ensures { told_by result ≡ refusal_of self }
    {
        match self {
            Refusal::Inputs => named(1, 0, 0),
            Refusal::TableLength => named(2, 0, 0),
            Refusal::TableByte { point } => named(3, 0, point),
            Refusal::ListLength => named(4, 0, 0),
            Refusal::NoPoint { transition } => named(5, transition, 0),
            Refusal::WideBurst { transition } => named(14, transition, 0),
            Refusal::DontCare { transition, point } => named(6, transition, point),
            Refusal::FunctionHazard { transition, point } => named(7, transition, point),
            Refusal::ShortBuffer => named(9, 0, 0),
            Refusal::Blocked {
                transition,
                label,
                steps,
                lowest,
            } => blocked(transition, label, steps, lowest),
            Refusal::NetworkLength => named(11, 0, 0),
            Refusal::ProductByte { product } => Fields {
                product,
                ..named(12, 0, 0)
            },
            Refusal::ShortWires => named(15, 0, 0),
            Refusal::MalformedText => named(13, 0, 0),
        }
    }
}
