//! Concrete runs of layer files: their blocks, run on the machine below a layer; their formulas; and the specification of a layer, or the
//! disk, as a machine below.
//!
//! An operation of the lowest layer, run up to the end on the disk that its file names:
//!
//! ```text
//! let mut disk = spec_lower(alloc, &typed, 0, tables)?;
//! let body = Body { layer: 0, part: Part::Impl, number: 0 };
//! match run_body(alloc, &typed, body, &args, &mut memory, &mut disk, None, &mut power)? {
//!     Ended::Whole(answer) => {}                                          // the block's answer; `memory` and `disk.state()` are those after it
//!     Ended::Down | Ended::Failed | Ended::Stopped | Ended::Short => {}   // never: this disk answers neither, and no stop was asked for
//! }
//! let relate = Formula { layer: 0, which: Which::Relate, number: 0 };
//! let related = holds(alloc, &typed, relate, &state, &memory, disk.state())?;
//! ```
#![tactic(auto)]

mod below;
mod block_law;
mod body;
pub mod direct_law;
mod disk;
mod ending;
mod flow;
mod formula;
mod law;
mod lower;
mod machine;
mod names;
mod parts;
mod related;
mod rows;
mod run;
mod runnable;
mod runner;
mod shapes;
mod silent;
mod spec;
mod state;
mod statements;
mod zeroing;

pub use below::place_of;
pub use block_law::layers_by_number;
pub use body::{Body, Part, Stop};
pub use ending::{give_back, names_of};
pub use formula::{Formula, Which};
pub use law::runs_are_steps;
pub use lower::Lower;
pub use machine::{SpecLower, spec_lower};
pub use parts::{arguments_of, block_of, variables_of};
pub use related::holds;
pub use run::{Ended, run_body};
pub use runnable::is_runnable;
pub use runner::Runner;
pub use shapes::{fits, values_fit};
pub use state::are_values_of;
pub use statements::{name_number, name_value};
pub use ygg_eval_expr::{
    AsyncDisk, Binding, Ground, Power, SyncDisk, Turn, digit, fresh_async, fresh_sync, read_row,
};
pub use ygg_meaning_laws::Picks;
pub use ygg_type::Typed;
pub use zeroing::zeros;
