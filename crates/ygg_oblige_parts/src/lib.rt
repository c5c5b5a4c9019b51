//! What obligations' terms are made of: states, comparisons, and what a layer's own specification may do.
#![tactic(auto)]

mod comparing;
mod digits;
mod formulas;
mod names;
mod outcome;
mod passing;
mod states;

pub use comparing::all_equal;
pub use digits::{implied, join};
pub use names::fresh;
pub use passing::SymStep;
pub use states::{Maker, SymStarting, SymTrio};
pub use ygg_oblige_given::words_in;
pub use ygg_sym_spec::{Bank, Book, Id, NoMemory, SymBelow, SymLayer, SymValues, zeros};
