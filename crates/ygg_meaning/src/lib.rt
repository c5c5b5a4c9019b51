//! What expressions and blocks mean, machines that may lose power, and the obligations of a layer.
#![tactic(auto)]

pub mod history_law;
pub mod law;

pub use ygg_disk::rows::read_row;
pub use ygg_disk::{
    AsyncDisk, Did, Event, Events, Fuse, Ground, Picks, Power, SyncDisk, Turn, fresh_async,
    fresh_sync,
};
