//! Rows of tables at places that are known.

ghost use Rattle.std.specs.Prelude.{◌≡◌, ℕ, slice_get, slice_set, IfOk, OnOk};
ghost use Rattle.ygg_shape_words.specs.ygg_bank.Nodes.{Extends, IsBank};
ghost use Rattle.ygg_shape_cells.specs.Making.{row_or_zeros, width_in, zeros};
ghost use Rattle.ygg_shape_cells.specs.Terms.{IsRow, IsTable, TableStands, words_in};

use crate::terms::{SymRow, SymTable};
use std::alloc::Global;
use ygg_shape_words::{Bank, Book, NoMemory, Node};
use ygg_value::Word;

/// The row at a place that is known, and zeros past the end.
pub fn row_or_zeros<B: Book>(
    alloc: Global,
    bank: &mut Bank,
    book: &B,
    table: &[SymRow],
    place: Word,
) -> Result<SymRow, NoMemory>
    requires bank { IsBank bank.old }
    requires table { TableStands bank.old table.now }
    ensures nodes { OnOk result (bank.new ≡ (row_or_zeros (B.kinds book.now) (words_in table.now) (width_in bank.old table.now)
        (slice_get table.now place.bits) bank.old).nodes) }
    ensures form { IfOk result (λ row. row ≡ (row_or_zeros (B.kinds book.now) (words_in table.now) (width_in bank.old table.now)
        (slice_get table.now place.bits) bank.old).value) }
    ensures grows { Extends bank.old bank.new }
    ensures bank { IsBank bank.new }
{
    match table.get(place.bits as usize) {
        Some(row) => row.copy(alloc),
        None => zeros(alloc, bank, book, table),
    }
}

/// A row of zeros, in the shape of the table's rows.
pub fn zeros<B: Book>(
    alloc: Global,
    bank: &mut Bank,
    book: &B,
    table: &[SymRow],
) -> Result<SymRow, NoMemory>
    requires table { TableStands bank.old table.now }
    ensures nodes { OnOk result (bank.new ≡ (zeros (B.kinds book.now) (words_in table.now) (width_in bank.old table.now) bank.old).nodes) }
    ensures form { IfOk result (λ row. row ≡ (zeros (B.kinds book.now) (words_in table.now) (width_in bank.old table.now) bank.old).value) }
    ensures shape { (words width : ℕ) → IsTable bank.old words width table.now → IfOk result (IsRow bank.new words width) }
    ensures grows { Extends bank.old bank.new }
    ensures bank { IsBank bank.new }
{
    let first = table[0].as_slice();
    let width = bank.width(first[0]);
    let zero = bank.make(Node::Const(Word { width, bits: 0 }), book)?;
    Ok(SymRow::from_vec(vec![in alloc; zero; first.len()]?))
}

/// The table with a row at a place that is known. Past the end nothing changes.
pub fn put_row(
    alloc: Global,
    table: &SymTable,
    place: Word,
    row: &SymRow,
) -> Result<SymTable, NoMemory>
    ensures { IfOk result (λ answer. answer ≡ slice_set table.now place.bits row.now) }
{
    let mut rows = table.copy(alloc)?.into_vec();
    let place = place.bits as usize;
    if place < rows.len() {
        rows[place] = row.copy(alloc)?;
    }
    Ok(SymTable::from_vec(rows))
}
