// The minimiser's answer as a number. Functions, and no `From`: the answer and the number are types of other crates.
ghost use Rattle.std.specs.Prelude.{◌≡◌};
ghost use Rattle.refusal.specs.Answer.{refusal_of};
ghost use Rattle.selection.specs.Answer.{minimised_of};
ghost use Rattle.packing.specs.Packed.{unpacked_refusal, unpacked_answer, RefusalFits, AnswerFits};

use refusal::refusal::Refusal;

// A refusal of the minimiser.
fn packed_refusal(r: Refusal) -> u64
    requires { RefusalFits (refusal_of r) }
    ensures { unpacked_refusal result ≡ refusal_of r }
{
    let fields = r.fields();
    let steps = u64::from(fields.steps) + (u64::from(fields.lowest) << 8);
    let point = u64::from(fields.point) + (steps << 16);
    let transition = u64::from(fields.transition) + (point << 16);
    u64::from(fields.number) + (transition << 8)
}

// The minimiser's answer: a count, or a refusal.
pub fn packed_answer(m: Result<usize, Refusal>) -> u64
    requires { AnswerFits (minimised_of m) }
    ensures { unpacked_answer result ≡ minimised_of m }
{
    match m {
        Ok(count) => (count as u64) << 8,
        Err(r) => packed_refusal(r),
    }
}
