// Hazard-free (document 01: quiet), decided by moving the wires through every set of moved wires. No required or privileged cube is used.
use crate::instance::Instance;
use crate::network::{Network, spread};
use crate::set::has;
use crate::transition::Transition;

// What is found of a network.
#[derive(Clone, Copy, PartialEq, Eq)]
pub enum Found {
    HazardFree,
    Hazard,
    // some transition moves more wires than are tried
    TooWide,
}

// As many wires of one transition are tried.
const WIDEST: u32 = 24;

// The wires of a network that move in a transition from the point `from`, and the values that it has to show before and after.
#[derive(Clone, Copy)]
pub struct Moves {
    net: Network,
    from: u16,
    pub moving: u64,
    pub first: bool,
    pub last: bool,
}

impl Moves {
    // The output where these wires have moved.
    pub(crate) fn output(&self, moved: u64) -> bool {
        self.net.output(self.from, moved)
    }

    // Whether some further wire gives another value than the last.
    fn leaves(&self, moved: u64) -> bool {
        let mut rest = self.moving ^ moved;
        for _ in 0..64u64 {
            if rest == 0 {
                return false;
            }
            let wire = rest & rest.wrapping_neg();
            if self.output(moved | wire) != self.last {
                return true;
            }
            rest ^= wire;
        }
        false
    }

    // Whether no run through this set of moved wires goes wrong here: a static transition shows one value, and a dynamic one that shows
    // its last value keeps it.
    fn right_at(&self, moved: u64) -> bool {
        let now = self.output(moved);
        if self.first == self.last {
            now == self.last
        } else {
            now != self.last || !self.leaves(moved)
        }
    }

    // Every set of the moving wires, `count` of them: taking `moving` away adds 1 through its bits alone.
    fn right_at_all(&self, count: u64) -> bool {
        let mut moved = 0;
        for _ in 0..count {
            if !self.right_at(moved) {
                return false;
            }
            moved = moved.wrapping_sub(self.moving) & self.moving;
        }
        true
    }

    // Whether every run is allowed.
    fn allowed(&self) -> Found {
        let shown = (self.output(0), self.output(self.moving));
        if shown != (self.first, self.last) {
            return Found::Hazard;
        }
        let wires = self.moving.count_ones();
        if WIDEST < wires {
            return Found::TooWide;
        }
        if self.right_at_all(1 << wires) {
            Found::HazardFree
        } else {
            Found::Hazard
        }
    }
}

impl Instance {
    pub(crate) fn moves(&self, net: Network, t: Transition) -> Moves {
        Moves {
            net,
            from: t.from,
            moving: net.care & spread(t.from ^ t.to),
            first: self.table.is_one(t.from),
            last: self.table.is_one(t.to),
        }
    }

    // Whether the network is 0 at each 0 of the table, and 1 at each point that is due.
    fn right_values(&self, net: Network, due: u16) -> bool {
        (0..16u16).all(|x| {
            if net.output(x, 0) {
                !has(self.table.zeros, x)
            } else {
                !has(due, x)
            }
        })
    }

    // Whether the network is hazard-free, where 1 is due at these points: at every 1, or at those that a transition visits.
    pub(crate) fn found_of(&self, net: Network, due: u16) -> Found {
        if !self.right_values(net, due) {
            return Found::Hazard;
        }
        let mut found = Found::HazardFree;
        for t in &self.transitions {
            let of_t = self.moves(net, *t).allowed();
            match of_t {
                Found::Hazard => return Found::Hazard,
                Found::TooWide => found = Found::TooWide,
                Found::HazardFree => {}
            }
        }
        found
    }
}
