// The refusal of a required cube that blocks.
ghost use Rattle.std.specs.Prelude.{◌≡◌, ℕ};
ghost use Rattle.cube.specs.Entry.{required_in};
ghost use Rattle.refusal.specs.Answer.{refusal_of};
ghost use Rattle.hazard.specs.Growth.{steps};
ghost use Rattle.expand.specs.Answer.{grown_of, zero_of, block_refusal};

use crate::growth::Grown;
use cube::entry::{point_in, transition_in};
use refusal::refusal::Refusal;

impl Grown {
    // The zero that growth ended at; 0 where it ended legal.
    fn zero(self) -> u16
        ensures { (n : ℕ) → result ≡ zero_of (grown_of n self) }
    {
        match self {
            Grown::Legal(_, _) => 0,
            Grown::Blocked(z, _) => z,
        }
    }

    // The steps that growth took.
    fn steps(self) -> u16
        ensures { (n : ℕ) → result ≡ steps (grown_of n self) }
    {
        match self {
            Grown::Legal(_, s) => s,
            Grown::Blocked(_, s) => s,
        }
    }

    // Refusal 10 for a word's required cube, whose growth ended so: its transition and label, the steps and the zero.
    pub fn refusal_of(self, w: u64) -> Refusal
        ensures { (n : ℕ) → refusal_of result ≡ block_refusal (required_in n w) (grown_of n self) }
    {
        Refusal::Blocked {
            transition: transition_in(w),
            label: point_in(w),
            steps: self.steps(),
            lowest: self.zero(),
        }
    }
}
