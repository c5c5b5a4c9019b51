//! Reading and writing a row at a place that is a term: as a table of one word a row.

ghost use Rattle.std.specs.Prelude.{ℕ, ◌≡◌, ◌≤◌, length, All, map, IfOk, OnOk};
ghost use Rattle.ygg_shape_words.specs.ygg_bank.Inputs.{KeepsInputs};
ghost use Rattle.ygg_shape_words.specs.ygg_bank.Nodes.{Extends, HasWidth, IsBank, Stands};
ghost use Rattle.ygg_shape_words.specs.ygg_bank.Values.{KeepsValues};
ghost use Rattle.ygg_shape_cells.specs.Terms.{IsRow};
ghost use Rattle.ygg_shape_cells.specs.RowPlaces.{CanWrite, IsWordRead, IsWordWritten, RowStands, first, singles, word_selected, word_stored};

use crate::selecting::select;
use crate::storing::store;
use crate::terms::{SymRow, SymTable};
use std::alloc::Global;
use ygg_shape_words::{Bank, Book, Id, NoMemory};

/// The table with one word of the row in each of its rows.
fn singles(alloc: Global, row: &[Id]) -> Result<SymTable, NoMemory>
    ensures { IfOk result (λ table. table ≡ singles row.now) }
{
    let mut table = SymTable::new(alloc);
    for word in row {
        let mut single = SymRow::new(alloc);
        single.push(*word)?;
        table.push(single)?;
    }
    Ok(table)
}

/// The word at a place of a row, counted from 0, and 0 past the end, in every environment. Its only error is out of memory, after which
/// the bank may have more nodes.
pub fn select_word<B: Book>(
    alloc: Global,
    bank: &mut Bank,
    book: &B,
    row: &SymRow,
    at: Id,
) -> Result<Id, NoMemory>
    requires row { RowStands bank.old row.now }
    requires at { Stands bank.old at }
    ensures nodes { OnOk result (bank.new ≡ (word_selected (B.kinds book.now) row.now at bank.old).nodes) }
    ensures form { IfOk result (λ id. id ≡ (word_selected (B.kinds book.now) row.now at bank.old).value) }
    ensures shape { (words width : ℕ) → IsRow bank.old words width row.now → IfOk result (λ id. HasWidth bank.new id width) }
    ensures value { IfOk result (IsWordRead bank.new row.now at) }
    ensures grows { Extends bank.old bank.new }
    ensures keeps { KeepsValues bank.old bank.new }
    ensures bank { IsBank bank.new }
    ensures inputs { OnOk result (KeepsInputs bank.old bank.new) }
{
    // the bank's nodes stand in order
    let _ = bank.len();
    let table = singles(alloc, row.as_slice())?;
    let answer = select(alloc, bank, book, &table, at)?;
    let words = answer.as_slice();
    Ok(words[0])
}

/// The first words of rows.
fn firsts(alloc: Global, table: &[SymRow]) -> Result<SymRow, NoMemory>
    requires { All (λ row. 1 ≤ length row) table.now }
    ensures { IfOk result (λ row. row ≡ map first table.now) }
{
    let mut row = SymRow::new(alloc);
    for single in table {
        let words = single.as_slice();
        row.push(words[0])?;
    }
    Ok(row)
}

/// The row with a word at a place, counted from 0, and the same row past the end, in every environment. Its only error is out of memory,
/// after which the bank may have more nodes.
pub fn store_word<B: Book>(
    alloc: Global,
    bank: &mut Bank,
    book: &B,
    row: &SymRow,
    at: Id,
    word: Id,
) -> Result<SymRow, NoMemory>
    requires row { CanWrite bank.old row.now word }
    requires at { Stands bank.old at }
    ensures nodes { OnOk result (bank.new ≡ (word_stored (B.kinds book.now) row.now at word bank.old).nodes) }
    ensures form { IfOk result (λ answer. answer ≡ (word_stored (B.kinds book.now) row.now at word bank.old).value) }
    ensures shape { (words width : ℕ) → IsRow bank.old words width row.now → IfOk result (IsRow bank.new words width) }
    ensures value { IfOk result (IsWordWritten bank.new row.now at word) }
    ensures grows { Extends bank.old bank.new }
    ensures keeps { KeepsValues bank.old bank.new }
    ensures bank { IsBank bank.new }
    ensures inputs { OnOk result (KeepsInputs bank.old bank.new) }
{
    // the bank's nodes stand in order
    let _ = bank.len();
    let table = singles(alloc, row.as_slice())?;
    let mut single = SymRow::new(alloc);
    single.push(word)?;
    let answer = store(alloc, bank, book, &table, at, &single)?;
    firsts(alloc, answer.as_slice())
}
