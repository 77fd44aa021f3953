// The members of a word's set, taken one after another from the lowest on: the bits that are 1.
ghost use Rattle.std.specs.Prelude.{◌≡◌, ◌≢◌, ◌<◌};
ghost use Rattle.std.specs.Int.Count.{count_trailing_zeros};
ghost use Rattle.std.specs.Iterator.{at_most};
ghost use Rattle.hazard.specs.Cube.{flip};
ghost use Rattle.cube.specs.Members.{TakesLowest};

// A word's set without its lowest member.
pub fn without_lowest(word: u64) -> u64
    requires { word ≢ 0 }
    ensures { (result ≡ flip word (count_trailing_zeros 64 word)) × (result < word) }
{
    word - (1u64 << word.trailing_zeros())
}

// What is left of a word's set.
#[derive(Drop)]
pub struct Members {
    left: u64,
}

impl Members {
    pub fn of(word: u64) -> Members
        ensures { result.left ≡ word }
    {
        Members { left: word }
    }
}

impl Iterator for Members {
    type Item = usize;

    ghost next_gives = { TakesLowest };

    ghost remaining = { λ s. at_most s.left };

    fn next(&mut self) -> Option<usize> {
        if self.left == 0 {
            return None;
        }
        let lowest = self.left.trailing_zeros() as usize;
        self.left = without_lowest(self.left);
        Some(lowest)
    }
}
