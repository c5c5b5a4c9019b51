//! Scripts played on a machine in memory, line by line; what a script names on a file's layers, and its text: disk calls, answers and power failing.
//!
//! ```text
//! write 0 05 kept
//! done
//! down
//! up
//! read 0
//! answer 05
//! played 3
//! ```
#![tactic(auto)]

mod calls;
mod deed;
mod ends;
mod halting;
mod law;
mod line;
mod playing;
mod scene;

pub use calls::put_events;
pub use ends::{played, put_answer, put_down, put_played, put_up, unreached};
pub use halting::PlayHalted;
pub use law::{files_have_one_way, plays_are_histories, scripts_have_one_text};
pub use playing::play_on;
pub use scene::{CommandOutcome, Scene};
pub use ygg_meaning_laws::typed_histories;
pub use ygg_script::{Command, Script, left_goes_on, plain_script, put, read_script};
