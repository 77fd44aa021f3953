// A run that the verifier wrote, replayed wire by wire.
ghost use Rattle.std.specs.Prelude.{◌≡◌, ◌+◌, ◌*◌, ◌^◌, ◌<◌};

use crate::wires::Moves;
use testing::wires::Wires;

// A wire's bit among those of a network's words. No network here has product 16 or input 4.
fn bit_of(product: u16, input: u16) -> u64
    ensures { product < 16 → input < 4 → result ≡ 2 ^ (product * 4 + input) }
{
    if product < 16 && input < 4 {
        1 << (product * 4 + input)
    } else {
        0
    }
}

impl Moves {
    // How often the output changes in the run of these wires, if they are every moving wire once and no other.
    fn changes(&self, run: Wires<'_>) -> Option<u64> {
        let mut moved = 0;
        let mut changes = 0u64;
        for [product, input] in run.0 {
            let wire = bit_of(*product, *input);
            if wire & (self.moving ^ moved) == 0 {
                return None;
            }
            let before = self.output(moved);
            moved |= wire;
            if self.output(moved) != before {
                changes = changes.saturating_add(1);
            }
        }
        (moved == self.moving).then_some(changes)
    }

    // Whether these wires are a run whose output list is not allowed. An allowed one begins with the value before and ends with the value
    // after, and changes only if these differ, and then once.
    pub(crate) fn is_wrong_run(&self, run: Wires<'_>) -> bool {
        let Some(changes) = self.changes(run) else {
            return false;
        };
        let begins = self.output(0) == self.first;
        let ends = self.output(self.moving) == self.last;
        !begins || !ends || changes != u64::from(self.first != self.last)
    }
}
