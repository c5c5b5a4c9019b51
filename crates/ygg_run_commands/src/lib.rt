//! The commands of a script run on the layers of a file, and their answers put as they are given.
#![tactic(auto)]

mod doing;
mod halting;
pub mod law;
mod running;

pub use halting::RunHalted;
pub use running::run_on;
pub use ygg_run::{Command, Floor, Ground, Script, Typed, Viewed, plain_script, read_script};
