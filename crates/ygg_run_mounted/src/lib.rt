//! A script run on the layers of a file over the image of their disk.
#![tactic(auto)]

mod commands;
mod run_end;
mod running;

pub use run_end::RunEnd;
pub use running::run;
pub use ygg_run_commands::{Script, plain_script, read_script};
pub use ygg_run_image::Device;
