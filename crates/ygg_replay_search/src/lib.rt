//! The first list of picks that passes a test, of all lists of as many picks in the order of their binary numbers.
#![tactic(auto)]

mod search;

pub use search::{Test, first_passing};
