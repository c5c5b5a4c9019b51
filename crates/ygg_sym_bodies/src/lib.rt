//! Runs over terms of the blocks of a typed file: whole ones, and such that power cuts.
//!
//! A whole run of an operation of the lowest layer, from terms for its memory, its arguments and the disk's tables:
//!
//! ```text
//! let body = Body { layer: 0, part: Part::Impl, number: 0 };
//! let done = run_sym(alloc, &typed, body, &from, None, &mut bank, &book)?;
//! // in every environment `done.after` and `done.answer` are worth the end of the run with the picks that it gives the inputs from
//! // `done.inputs.picks` on
//! ```
#![tactic(auto)]

mod made;
mod number;
mod run;
mod site;
mod state;
mod stop;

pub use run::run_sym;
pub use state::{Inputs, SymRun, SymState};
pub use stop::stop_sym;
