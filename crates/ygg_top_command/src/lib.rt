//! What all commands share: texts and layer files that are fetched by name, numbers among the words, refusals, and what is told of how a command ends,
//! one on an image by a device that fails too.
#![tactic(auto)]

mod failing;
mod fetching;
mod file;
mod stopping;
mod words;

pub use failing::end_broken;
pub use fetching::{MOST_BYTES, fetched};
pub use file::{close, file_of, layer_file};
pub use stopping::{CommandStop, end};
pub use words::{USUAL_BUDGET, budget, number_up_to};
pub use ygg_report::{Tally, Verdict, demo, line, put, put_all, refuted, undecided, verified};
pub use ygg_type::Typed;
