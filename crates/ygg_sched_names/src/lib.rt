//! The names of a file's obligations differ, so that the text of a schedule names just the obligation that it violates.
#![tactic(auto)]

mod law;

pub use law::{
    accepted_has_names, named_is, names_are_plain, names_differ, printed_shows, site_named_is,
};
pub use ygg_oblige_laws::schedules_law::file_schedules;
pub use ygg_replay::one_ending;
