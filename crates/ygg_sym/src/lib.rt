//! Runs over terms on what a layer is specified over: the disk, or the specification of the layer below.
#![tactic(auto)]

mod disk_stops;
mod rooms;
mod running;
mod runs;
mod spec_stops;
mod stopping;

pub use disk_stops::DiskStops;
pub use rooms::{failure_room, places};
pub use runs::{SymBlock, SymCut, SymEnd, cut, lost, low_at_start, run};
pub use spec_stops::SpecStops;
pub use stopping::cut_short;
pub use ygg_sym_spec::{SymLayer, SymPicks, block};
