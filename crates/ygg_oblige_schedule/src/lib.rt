//! The schedule of an obligation with given inputs, read from an environment: the values are those of its inputs, and the picks are those that the runs
//! take, which it names by place.
#![tactic(auto)]

mod named;
mod reader;
mod site;
mod starting;

pub use reader::EnvironmentReader;
pub use site::Site;
pub use ygg_eval::Typed;
pub use ygg_eval_places::{Bank, Env};
pub use ygg_oblige_given::InputTable;
pub use ygg_replay::Schedule;
