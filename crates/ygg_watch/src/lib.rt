//! Unit propagation: its calls with their meaning; the plain one, which looks at every clause, and that by watched literals; the assigned literals of a
//! search in order, each with its level and its reason; which variable is decided next, and when to begin again. The last is advice: no proof rests on it.
#![tactic(auto)]

mod assignments;
mod entry;
mod examine;
mod found;
mod frame;
mod heap;
mod links;
mod loading;
mod maker;
mod packed_entry;
mod picking;
mod plain;
mod polarity;
mod propagate;
mod restarts;
mod spreading;
mod status;
mod turns;
mod visit;
mod watching;

pub use assignments::Assignments;
pub use entry::Entry;
pub use found::{Assigned, Found};
pub use frame::Checkpoint;
pub use heap::{Order, Work};
pub use links::{Links, lits_of};
pub use loading::{load, variable_count_for};
pub use maker::watch;
pub use packed_entry::PackedEntry;
pub use picking::pick;
pub use plain::{PlainSpread, plain_spread};
pub use polarity::InitialPolarity;
pub use propagate::{Propagate, Trail};
pub use restarts::Restarts;
pub use spreading::spread;
pub use status::{ClauseStatus, status_of};
pub use visit::{Judged, visit_all};
pub use watching::Watch;
