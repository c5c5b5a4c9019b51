//! The schedule of an obligation of a file, read from an environment: the obligation at a place with the inputs that it has, and the schedule that the
//! environment names for it.
#![tactic(auto)]

mod reading;
mod site;
mod starts;

pub use reading::{case_at, schedule, schedule_at};
pub use site::site_at;
pub use ygg_oblige::{Obligation, obligations};
pub use ygg_oblige_schedule::Site;
pub use ygg_rules::Book;
