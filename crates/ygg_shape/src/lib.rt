//! Rows, tables and values whose words are terms of a bank, compared, and as a hypothesis has them: what makes them is handed on beside that.
#![tactic(auto)]

pub mod comparing;
pub mod conjuncts;
pub mod equating;
pub mod equations;
pub mod finding;
pub mod joins;
pub mod replacing;
pub mod replacing_law;
pub mod whole_comparing;

pub use comparing::equal;
pub use equating::{ROW_DEPTH, equate_rows};
pub use finding::facts;
pub use replacing::{Replacement, Replacements, replace};
pub use whole_comparing::equal_all;
pub use ygg_shape_cells::{
    Bank, Book, Env, Given, Id, NoMemory, Node, SymRow, SymTable, SymValue, SymValues, inputs_of,
    merge, merge_all, pick, select, select_word, store, store_where, store_word, zero,
};
