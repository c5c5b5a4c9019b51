//! Replays of schedules: what an obligation asks of a schedule is run on values, on the layer's blocks and on what the layer is specified over;
//! and the text of a schedule, which is refused or replayed so.
#![tactic(auto)]

mod conclusion;
mod ends;
mod formulas;
mod law;
mod replaying;
mod runs;
mod schedule;
mod search;
mod showing;
mod site;
mod spec;

pub use law::{one_ending, refuted_exactly};
pub use replaying::replay_text;
pub use schedule::Replayed;
pub use showing::replay;
pub use site::ReplaySite;
pub use ygg_eval::zeros;
pub use ygg_sched::{
    Halt, Schedule, Typed, case_named, holds_with, hypothesis, print_schedule, read_schedule,
    refused, shows,
};
