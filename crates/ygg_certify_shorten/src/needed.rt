//! Which steps of a refutation are needed.

use crate::refutation::Refutation;
use std::alloc::Global;
use ygg_list::NoMemory;

/// Whether each step is the last one, or one that a needed step's chain names. Its only error is out of memory.
pub fn needed_steps(alloc: Global, refutation: &Refutation) -> Result<Vec<bool>, NoMemory> {
    let count = refutation.chains.len();
    let mut needed = Vec::from_elem(alloc, false, count)?;
    if let Some(last) = needed.last_mut() {
        *last = true;
    }
    for step in (0..count).rev() {
        if needed.get(step) == Some(&true) {
            mark(needed.as_mut_slice(), refutation, step);
        }
    }
    Ok(needed)
}

/// Marks the steps that a step's chain names.
fn mark(needed: &mut [bool], refutation: &Refutation, step: usize) {
    for number in refutation.chains.at(step) {
        if let Some(named) = (*number as usize).checked_sub(refutation.given) {
            if let Some(slot) = needed.get_mut(named) {
                *slot = true;
            }
        }
    }
}
