//! The specification of a layer over terms.
#![tactic(auto)]

mod begun;
mod below;
mod blocks;
mod chooser;
mod declared;
mod falls;
mod layer;
mod machine;
mod picks;

pub use begun::start;
pub use below::SymBelow;
pub use blocks::{SpecDone, bind, block, choices, crash, then_crash, values_of};
pub use chooser::{Nothing, SymChooser};
pub use declared::zeros;
pub use falls::fall;
pub use layer::SymLayer;
pub use machine::SymSpec;
pub use picks::SymPicks;
pub use ygg_sym_runs::{
    Bank, Book, Env, Given, Id, NoMemory, Node, SymBinding, SymEvaluator, SymLower, SymRunner,
    SymValue, SymValues, equal, equal_all, id_in, inputs_of, room, shape_of, whole, zero,
};
