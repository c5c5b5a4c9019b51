//! The one list type of the project, and out of memory.
#![tactic(auto)]

mod memory;
mod sequence;

pub use memory::NoMemory;
pub use sequence::{Duplicate, Sequence};
