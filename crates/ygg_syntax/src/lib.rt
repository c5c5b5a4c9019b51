//! The trees of layer files, and their grammar; whether two files are the same but for places, and copies; how many choices and calls a block makes at most,
//! and how much work it may be, each counted to 1,000,000: by the tree alone, and with a table of the weights of definitions, in which each is counted once
//! over those before it.
#![tactic(auto)]

pub mod budget;
mod copy;
pub mod expressions;
pub mod grammar;
pub mod lists;
mod parts;
mod same;
mod statements;
mod steps;
mod table;
pub mod tree;
mod weigh;
mod weights;

pub use copy::copy_file;
pub use same::same_tree;
pub use steps::{choices, events};
pub use table::Weights;
pub use weights::weight;
