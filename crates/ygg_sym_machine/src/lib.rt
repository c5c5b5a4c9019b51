//! Machines over terms that lose power: the disks, with their calls, their power loss and their states merged; and machines whose power fails at stops.
#![tactic(auto)]

mod asking;
mod ending;
mod halting;
mod lower;
mod machine;
mod power;
mod stopping;
mod stops;
mod tables;

pub use ending::{StopEnd, end_halting};
pub use halting::{Halting, StopState};
pub use lower::SymDisk;
pub use machine::handle;
pub use power::{cut, lose};
pub use stops::SymStops;
pub use ygg_sym_runs::low_states::{Lows, join_lows};
pub use ygg_sym_runs::{
    Awaited, Bank, Book, Id, NoMemory, Node, SymBinding, SymFrame, SymLower, SymRunner, SymValue,
    SymValues,
};
