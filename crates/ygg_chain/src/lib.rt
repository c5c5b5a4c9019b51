//! The checker of derivations: it holds clauses and says whether a chain of resolution steps derives a clause from them.
#![tactic(auto)]

mod arena;
mod checker;
mod counting;
mod place_table;
mod places;
mod store;

pub use checker::Checker;
pub use places::Variables;
