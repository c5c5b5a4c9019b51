//! Disks: what they do, step by step, the calls on whatever stands for one, and three in memory: a synchronous one, an asynchronous one and
//! one with a write-back cache.
#![tactic(auto)]

mod async_disk;
mod fate;
pub mod ground;
pub mod law;
mod pending_disk;
mod power;
pub mod rows;
mod sync_disk;
mod turn;
mod waiting;

pub use async_disk::{AsyncDisk, fresh_async};
pub use fate::Fate;
pub use ground::Ground;
pub use pending_disk::{PendingDisk, fresh_pending};
pub use power::{Fuse, Picks, Power};
pub use sync_disk::{SyncDisk, fresh_sync};
pub use turn::{Did, Event, Events, Turn};
