//! One bank of shared terms over words.
#![tactic(auto)]

pub mod bank;
pub mod env;
pub mod node;
mod pending;
mod visits;

pub use bank::Bank;
pub use env::{Env, Given, Words, given_for};
pub use node::{Id, Node};
pub use visits::reached;
pub use ygg_list::NoMemory;
