//! Plain schedules: a schedule that violates an obligation, with smaller numbers, fewer losses and an earlier stop. It's made by small steps, each of which is kept
//! only where a replay shows that the schedule still violates the obligation.
#![tactic(auto)]

mod listing;
mod lowering;
mod step;
mod trying;
mod work;

pub use trying::{plain, plain_at};
pub use ygg_replay::{Schedule, Typed};
pub use ygg_sched::{Case, CaseKind};
