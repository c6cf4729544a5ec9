//! The rules of a cycle of chosen rules.

use potentials::search::Heights;
use std::alloc::{AllocError, Global};

/// The numbers of the rules of the cycle that the chosen rules close at a place, from that place on.
pub fn cycle_through(alloc: Global, heights: &Heights, place: u32) -> Result<Vec<u32>, AllocError> {
    let mut cycle = Vec::new(alloc);
    let mut at = place;
    'steps: for _ in heights.values() {
        let Some(link) = heights.chosen(at) else {
            break;
        };
        cycle.push(link.rule)?;
        at = link.place;
        if at == place {
            break;
        }
    }
    cycle.reverse();
    Ok(cycle)
}
