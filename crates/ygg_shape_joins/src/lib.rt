//! Values that are merged where much of what is merged may be alike: where what stands in the place of the test is there already under another
//! test, the two tests are joined, and one pick stands for both.
#![tactic(auto)]

pub mod joining;
pub mod wholes;
mod words;

pub use wholes::join_all;
