//! Scripts as texts: the commands that a stack of layers is to do, and where power fails, read by lines.
//!
//! ```text
//! ygg-script 1
//! keep 10
//! call put 01 02
//! fail before 6
//! fail within 3
//! tick pair.move
//! lost
//! end
//! ```
#![tactic(auto)]

mod command;
mod flaw;
mod lines;
mod names;
mod places;
mod plain;
mod reading;

pub use command::{Command, Script};
pub use flaw::ScriptFlaw;
pub use plain::plain_script;
pub use reading::read_script;
pub use ygg_sched::{Did, Event, Events, Fuse, Picks, Power, Typed, left_goes_on, put, put_value};
