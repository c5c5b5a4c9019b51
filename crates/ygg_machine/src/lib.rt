//! Stacks: the layers of a file, run on one another over a ground.
#![tactic(auto)]

mod floor;
mod grounded;
pub mod law;
mod tower;
pub mod viewed;

pub use floor::Floor;
pub use grounded::Grounded;
pub use law::{stacks_tell, whole_calls_are_counted};
pub use tower::Tower;
pub use viewed::Viewed;
pub use ygg_eval::{
    AsyncDisk, Ground, Picks, Power, SyncDisk, Turn, Typed, fresh_async, fresh_sync,
};
