//! Rows, tables and values whose words are terms of a bank: reading and writing at a place that is known or a term, and merging; pairs of
//! words that are to be compared. Contracts of the calls name the nodes that each makes.
#![tactic(auto)]

pub mod cells;
pub mod fresh;
pub mod guarding;
pub mod merging;
pub mod pairs;
mod places;
pub mod pruning;
pub mod row_words;
pub mod selecting;
pub mod sharing;
pub mod storing;
pub mod terms;
pub mod wholes;

pub use fresh::inputs_of;
pub use guarding::store_where;
pub use merging::merge;
pub use row_words::{select_word, store_word};
pub use selecting::select;
pub use storing::store;
pub use terms::{SymRow, SymTable, SymValue, SymValues};
pub use wholes::{merge_all, zero};
pub use ygg_shape_words::{Bank, Book, Env, Given, Id, NoMemory, Node, pick};
