// Required cubes, straight from their words: only for the fields that a refusal or a fault names.
use crate::product::Product;
use crate::set::has;
use crate::table::Table;
use crate::transition::Transition;
use std::alloc::{AllocError, Global};

#[derive(Clone, Copy)]
pub struct Required {
    // the number of transitions stands for none of them
    pub transition: u16,
    pub label: u16,
    pub cube: Product,
}

// Those of all transitions by label, and then the single points.
pub(crate) fn required_cubes(
    alloc: Global,
    table: Table,
    transitions: &[Transition],
    unvisited: u16,
) -> Result<Vec<Required>, AllocError> {
    let mut required = Vec::new(alloc);
    for (transition, t) in (0..u16::MAX).zip(transitions.iter()) {
        let ones = t.points() & table.ones;
        for label in 0..16u16 {
            if has(ones, label) && table.is_label(*t, label) {
                let cube = Product::between(table.start_point(*t), label);
                required.push(Required {
                    transition,
                    label,
                    cube,
                })?;
            }
        }
    }
    let transition = u16::try_from(transitions.len()).unwrap_or(u16::MAX);
    for label in 0..16u16 {
        if has(unvisited, label) {
            let cube = Product::between(label, label);
            required.push(Required {
                transition,
                label,
                cube,
            })?;
        }
    }
    Ok(required)
}
