//! What a person reads on standard error beside the lines of standard output: what a refusal means and where, what a spent budget means, and which call on the
//! system failed. Nothing here is judged: it is told of what the commands have answered.
#![tactic(auto)]

mod calls;
mod excerpt;
mod fault;
mod heard;
mod hint;
mod layer_hint;
mod meanings;
mod refusal;
mod spent;
mod telling;
mod usage;
mod words;

pub use calls::{calls_message, script_before, unreached};
pub use heard::Heard;
pub use telling::{read_again, tell};
