//! Scripts played on the layers of a file.
#![tactic(auto)]

mod building;
mod gathering;
mod playable;
mod playing;
mod stacking;
mod staged;

pub use building::{async_ground, raised, sync_ground};
pub use playable::{InMemory, Playable};
pub use playing::{play, put_play};
pub use staged::Staged;
pub use ygg_machine::{Floor, Ground, Picks, Power, Turn, Typed, Viewed, viewed};
pub use ygg_run_play::{
    Command, Script, left_goes_on, plain_script, put, put_answer, read_script, typed_histories,
};
