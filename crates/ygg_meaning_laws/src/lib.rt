//! What typing gives: expressions without a type error have values of their shapes, and typed files never get stuck: what a block asks for is
//! answered. And runs of blocks as functions of picks.
#![tactic(auto)]

pub mod direct_law;
pub mod law;
pub mod progress_law;

pub use crate::progress_law::typed_histories;
pub use ygg_meaning::history_law::refines_by_list;
pub use ygg_meaning::{
    AsyncDisk, Ground, Picks, Power, SyncDisk, Turn, fresh_async, fresh_sync, read_row,
};
pub use ygg_type_rules::choices;
