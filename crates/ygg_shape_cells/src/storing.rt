//! Writing a table at a place that is a term.

ghost use Rattle.std.specs.Prelude.{◌≡◌, ℕ, length, IfOk, OnOk};
ghost use Rattle.ygg_shape_words.specs.ygg_rules.Views.{IsWidth};
ghost use Rattle.ygg_shape_words.specs.ygg_bank.Inputs.{KeepsInputs};
ghost use Rattle.ygg_shape_words.specs.ygg_bank.Nodes.{Extends, HasWidth, IsBank, Stands};
ghost use Rattle.ygg_shape_words.specs.ygg_bank.Values.{KeepsValues};
ghost use Rattle.ygg_shape_cells.specs.Making.{stored, stored_from};
ghost use Rattle.ygg_shape_cells.specs.Meaning.{IsConstant, IsWritten};
ghost use Rattle.ygg_shape_cells.specs.Terms.{AreRows, CanStore, IsRow, IsTable};

use crate::cells::put_row;
use crate::places::{TermPlace, where_at};
use crate::terms::{SymRow, SymTable};
use std::alloc::Global;
use ygg_shape_words::{Bank, Book, Id, NoMemory, known};

/// The table with a row at a place, counted from 0, and the same table past the end, in every environment. Where the place is a constant no
/// node is made; else a pick for each word. Its only error is out of memory, after which the bank may have more nodes.
pub fn store<B: Book>(
    alloc: Global,
    bank: &mut Bank,
    book: &B,
    table: &SymTable,
    at: Id,
    row: &SymRow,
) -> Result<SymTable, NoMemory>
    requires table { CanStore bank.old table.now row.now }
    requires at { Stands bank.old at }
    ensures nodes { OnOk result (bank.new ≡ (stored (B.kinds book.now) table.now at row.now bank.old).nodes) }
    ensures form { IfOk result (λ answer. answer ≡ (stored (B.kinds book.now) table.now at row.now bank.old).value) }
    ensures shape { (words width : ℕ) → IsTable bank.old words width table.now → IsRow bank.old words width row.now →
        IfOk result (IsTable bank.new words width) }
    ensures count { IfOk result (λ answer. length answer ≡ length table.now) }
    ensures value { IfOk result (IsWritten bank.new table.now at row.now) }
    ensures constant { IsConstant bank.old at → bank.new ≡ bank.old }
    ensures grows { Extends bank.old bank.new }
    ensures keeps { KeepsValues bank.old bank.new }
    ensures bank { IsBank bank.new }
    ensures inputs { OnOk result (KeepsInputs bank.old bank.new) }
{
    // the bank's nodes stand in order
    let _ = bank.len();
    store_by(alloc, bank, book, table, at, row)
}

/// What `store` does.
fn store_by<B: Book>(
    alloc: Global,
    bank: &mut Bank,
    book: &B,
    table: &SymTable,
    at: Id,
    row: &SymRow,
) -> Result<SymTable, NoMemory>
    requires bank { IsBank bank.old }
    requires table { CanStore bank.old table.now row.now }
    requires at { Stands bank.old at }
    ensures nodes { OnOk result (bank.new ≡ (stored (B.kinds book.now) table.now at row.now bank.old).nodes) }
    ensures form { IfOk result (λ answer. answer ≡ (stored (B.kinds book.now) table.now at row.now bank.old).value) }
    ensures constant { IsConstant bank.old at → bank.new ≡ bank.old }
    ensures grows { Extends bank.old bank.new }
    ensures bank { IsBank bank.new }
{
    match known(bank, at) {
        Some(place) => put_row(alloc, table, place, row),
        None => {
            let width = bank.width(at);
            store_all(
                alloc,
                bank,
                book,
                TermPlace { at, width },
                table.as_slice(),
                row.as_slice(),
            )
        }
    }
}

/// Each row of the table, or the new row where the place has its number.
fn store_all<B: Book>(
    alloc: Global,
    bank: &mut Bank,
    book: &B,
    place: TermPlace,
    table: &[SymRow],
    new: &[Id],
) -> Result<SymTable, NoMemory>
    requires bank { IsBank bank.old }
    requires place { HasWidth bank.old place.at place.width }
    requires width { IsWidth place.width }
    requires rows { AreRows bank.old table.now new.now }
    ensures nodes { OnOk result (bank.new ≡ (stored_from (B.kinds book.now) place.at place.width new.now 0 table.now bank.old).nodes) }
    ensures form { IfOk result (λ answer. answer ≡ (stored_from (B.kinds book.now) place.at place.width new.now 0 table.now bank.old).value) }
    ensures grows { Extends bank.old bank.new }
    ensures bank { IsBank bank.new }
{
    let mut rows = SymTable::new(alloc);
    for number in 0..table.len() {
        let row = where_at(
            alloc,
            bank,
            book,
            place,
            number,
            new,
            table[number].as_slice(),
        )?;
        rows.push(row)?;
    }
    Ok(rows)
}
