//! Rows, tables and values whose words are terms of a bank.

use std::alloc::Global;
use ygg_list::{Duplicate, Sequence};
use ygg_shape_words::{Id, NoMemory};

/// The terms of a row's words, in order.
pub type SymRow = Sequence<Id>;

/// The rows of a table, in order.
pub type SymTable = Sequence<SymRow>;

/// A word, a row or a table of terms.
pub enum SymValue {
    /// The term of a word.
    Word(Id),
    /// The terms of a row's words.
    Row(SymRow),
    /// The rows of a table.
    Table(SymTable),
}

impl Drop for SymValue {
    fn drop(self) {
        match self {
            SymValue::Word(_) => {}
            SymValue::Row(row) => drop(row),
            SymValue::Table(table) => drop(table),
        }
    }
}

/// Values in order.
pub type SymValues = Sequence<SymValue>;

impl Duplicate for SymValue {
    fn duplicate(&self, alloc: Global) -> Result<SymValue, NoMemory> {
        match self {
            SymValue::Word(term) => Ok(SymValue::Word(*term)),
            SymValue::Row(row) => Ok(SymValue::Row(row.copy(alloc)?)),
            SymValue::Table(table) => Ok(SymValue::Table(table.copy(alloc)?)),
        }
    }
}
