// What refusals and verdicts name, in numbers of the counterpart's own. The code's answers are taken apart here and nowhere else: what the
// counterpart finds is told by none of the code's types, so that the numbers of the answers are compared too.
use conditions::fault::Verdict;
use refusal::fields::Fields;
use refusal::refusal::Refusal;

// The numbers, by document 01, of the refusals that the counterpart finds.
pub const DONT_CARE: u8 = 6;

pub const FUNCTION_HAZARD: u8 = 7;

pub const BLOCKED: u8 = 10;

// Those of the verdicts.
pub const PASSED: u8 = 1;

pub const HOLDS_ZERO: u8 = 2;

pub const INTERSECTS: u8 = 3;

pub const UNCOVERED: u8 = 4;

// A refusal or a verdict: its number, and all that any of them names. What it does not name is 0.
#[derive(Clone, Copy, Default, PartialEq, Eq)]
pub struct Named {
    pub number: u8,
    pub product: u16,
    pub transition: u16,
    // a point or a label
    pub point: u16,
    pub steps: u16,
    // the lowest zero
    pub lowest: u16,
}

impl From<Refusal> for Named {
    fn from(refusal: Refusal) -> Named {
        let Fields {
            number,
            transition,
            point,
            steps,
            lowest,
            product,
        } = refusal.fields();
        Named {
            number,
            product,
            transition,
            point,
            steps,
            lowest,
        }
    }
}

impl From<Verdict> for Named {
    // A match: each verdict names fields of its own.
    fn from(verdict: Verdict) -> Named {
        let nothing = Named::default();
        match verdict {
            Verdict::Passed => Named {
                number: PASSED,
                ..nothing
            },
            Verdict::HoldsZero { product, point } => Named {
                number: HOLDS_ZERO,
                product,
                point,
                ..nothing
            },
            Verdict::Intersects {
                product,
                transition,
            } => Named {
                number: INTERSECTS,
                product,
                transition,
                ..nothing
            },
            Verdict::Uncovered { transition, label } => Named {
                number: UNCOVERED,
                transition,
                point: label,
                ..nothing
            },
        }
    }
}
