//! The obligations of a layer: which it has, in order, their names, and where the inputs of each begin.
#![tactic(auto)]

mod listing;
mod names;
mod numbers;
mod obligation;

pub use listing::{Asked, asked_of, place_of};
pub use names::name_of;
pub use numbers::SymNumbers;
pub use obligation::SymObligation;
