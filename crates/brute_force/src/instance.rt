// A table and a list of transitions, with what follows from them.
use crate::named::Named;
use crate::required::{Required, required_cubes};
use crate::table::Table;
use crate::transition::Transition;
use std::alloc::{AllocError, Global};
use testing::calls::Problem;

#[derive(Drop)]
pub struct Instance {
    pub table: Table,
    pub transitions: Vec<Transition>,
    // the points of all [A,B]
    pub visited: u16,
    pub required: Vec<Required>,
    // as the calls take them
    bytes: Vec<u8>,
    ends: Vec<u16>,
}

impl Instance {
    pub(crate) fn new(
        alloc: Global,
        table: Table,
        transitions: Vec<Transition>,
    ) -> Result<Instance, AllocError> {
        let mut visited = 0;
        let mut ends = Vec::new(alloc);
        for t in &transitions {
            visited |= t.points();
            ends.push(t.from)?;
            ends.push(t.to)?;
        }
        let required = required_cubes(alloc, table, &transitions, table.ones & !visited)?;
        let bytes = table.bytes(alloc)?;
        Ok(Instance {
            table,
            transitions,
            visited,
            required,
            bytes,
            ends,
        })
    }

    pub(crate) fn problem(&self) -> Problem<'_> {
        Problem {
            n: usize::from(self.table.n),
            table: &self.bytes,
            transitions: &self.ends,
        }
    }

    // Transition k, if there are so many.
    pub(crate) fn transition(&self, k: u16) -> Option<Transition> {
        self.transitions.get(usize::from(k)).copied()
    }

    // The 1s that no transition visits.
    pub(crate) fn unvisited(&self) -> u16 {
        self.table.ones & !self.visited
    }

    // Check 6 or 7.
    pub(crate) fn refusal(&self) -> Option<Named> {
        self.table.refusal(&self.transitions)
    }

    // The first transition with which a product with these points has an illegal intersection, and its number.
    pub(crate) fn first_illegal(&self, held: u16) -> Option<(u16, Transition)> {
        for (k, t) in (0..u16::MAX).zip(self.transitions.iter()) {
            if self.table.is_illegal(held, *t) {
                return Some((k, *t));
            }
        }
        None
    }

    // Whether the set of points is that of a legal product.
    pub(crate) fn is_legal(&self, held: u16) -> bool {
        held & self.table.zeros == 0 && self.first_illegal(held).is_none()
    }
}
