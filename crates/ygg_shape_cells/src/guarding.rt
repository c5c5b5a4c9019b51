//! Writing a table at a place that is a term, where a test is 1.

ghost use Rattle.std.specs.Prelude.{◌≡◌, ◌<◌, ◌^◌, ℕ, length, slice_get, IfOk, OnOk};
ghost use Rattle.ygg_shape_words.specs.ygg_rules.Views.{IsWidth};
ghost use Rattle.ygg_shape_words.specs.ygg_bank.Inputs.{KeepsInputs};
ghost use Rattle.ygg_shape_words.specs.ygg_bank.Nodes.{Extends, HasWidth, IsBank, Stands};
ghost use Rattle.ygg_shape_words.specs.ygg_bank.Values.{KeepsValues};
ghost use Rattle.ygg_shape_cells.specs.Terms.{AreRows, CanStore, IsRow, IsTable, RowsAlike};
ghost use Rattle.ygg_shape_cells.specs.Guarding.{IsWrittenWhere, guarded_at, guarded_from, guarded_known, guarded_split, stored_where};

use crate::cells::put_row;
use crate::merging::merge_row;
use crate::pruning::write_row;
use crate::terms::{SymRow, SymTable};
use std::alloc::Global;
use ygg_shape_words::{Bank, Book, Id, NoMemory, Node, fits, known, same};
use ygg_value::{Op, Word};

/// A test of width 1, a place, and how many binary digits the place has.
#[derive(Clone, Copy, Drop)]
pub struct Guard {
    /// The test.
    pub test: Id,
    /// The place.
    pub at: Id,
    /// The place's width.
    pub width: u8,
}

/// The table with a row at a place, counted from 0, where the test is 1, and the same table else and past the end, in every environment.
/// Words that are one term stay. Its only error is out of memory, after which the bank may have more nodes.
pub fn store_where<B: Book>(
    alloc: Global,
    bank: &mut Bank,
    book: &B,
    test: Id,
    table: &SymTable,
    at: Id,
    row: &SymRow,
) -> Result<SymTable, NoMemory>
    requires test { HasWidth bank.old test 1 }
    requires table { CanStore bank.old table.now row.now }
    requires at { Stands bank.old at }
    ensures nodes { OnOk result (bank.new ≡ (stored_where (B.kinds book.now) test table.now at row.now bank.old).nodes) }
    ensures form { IfOk result (λ answer. answer ≡ (stored_where (B.kinds book.now) test table.now at row.now bank.old).value) }
    ensures shape { (words width : ℕ) → IsTable bank.old words width table.now → IsRow bank.old words width row.now →
        IfOk result (IsTable bank.new words width) }
    ensures value { IfOk result (IsWrittenWhere bank.new test table.now at row.now) }
    ensures grows { Extends bank.old bank.new }
    ensures keeps { KeepsValues bank.old bank.new }
    ensures bank { IsBank bank.new }
    ensures inputs { OnOk result (KeepsInputs bank.old bank.new) }
{
    // the bank's nodes stand in order
    let _ = bank.len();
    store_where_by(alloc, bank, book, test, table, at, row)
}

/// What `store_where` does.
fn store_where_by<B: Book>(
    alloc: Global,
    bank: &mut Bank,
    book: &B,
    test: Id,
    table: &SymTable,
    at: Id,
    row: &SymRow,
) -> Result<SymTable, NoMemory>
    requires bank { IsBank bank.old }
    requires test { HasWidth bank.old test 1 }
    requires table { CanStore bank.old table.now row.now }
    requires at { Stands bank.old at }
    ensures nodes { OnOk result (bank.new ≡ (stored_where (B.kinds book.now) test table.now at row.now bank.old).nodes) }
    ensures form { IfOk result (λ answer. answer ≡ (stored_where (B.kinds book.now) test table.now at row.now bank.old).value) }
    ensures grows { Extends bank.old bank.new }
    ensures bank { IsBank bank.new }
{
    match known(bank, at) {
        Some(place) => guarded_known(alloc, bank, book, test, table, place, row),
        None => {
            let width = bank.width(at);
            guard_all(
                alloc,
                bank,
                book,
                Guard { test, at, width },
                table.as_slice(),
                row.as_slice(),
            )
        }
    }
}

/// The table with a row at a place that is known, where the test is 1.
fn guarded_known<B: Book>(
    alloc: Global,
    bank: &mut Bank,
    book: &B,
    test: Id,
    table: &SymTable,
    place: Word,
    row: &SymRow,
) -> Result<SymTable, NoMemory>
    requires bank { IsBank bank.old }
    requires test { HasWidth bank.old test 1 }
    requires table { CanStore bank.old table.now row.now }
    ensures nodes { OnOk result (bank.new ≡ (guarded_known (B.kinds book.now) test table.now row.now place.bits
        (slice_get table.now place.bits) bank.old).nodes) }
    ensures form { IfOk result (λ answer. answer ≡ (guarded_known (B.kinds book.now) test table.now row.now place.bits
        (slice_get table.now place.bits) bank.old).value) }
    ensures grows { Extends bank.old bank.new }
    ensures bank { IsBank bank.new }
{
    match table.as_slice().get(place.bits as usize) {
        Some(old) => {
            let new = merge_row(alloc, bank, book, test, row.as_slice(), old.as_slice())?;
            put_row(alloc, table, place, &new)
        }
        None => table.copy(alloc),
    }
}

/// Each row of the table, or the new row where the test is 1 and the place has its number.
fn guard_all<B: Book>(
    alloc: Global,
    bank: &mut Bank,
    book: &B,
    guard: Guard,
    table: &[SymRow],
    new: &[Id],
) -> Result<SymTable, NoMemory>
    requires bank { IsBank bank.old }
    requires test { HasWidth bank.old guard.test 1 }
    requires place { HasWidth bank.old guard.at guard.width }
    requires width { IsWidth guard.width }
    requires rows { AreRows bank.old table.now new.now }
    ensures nodes { OnOk result (bank.new ≡ (guarded_from (B.kinds book.now) guard.test guard.at guard.width new.now 0 table.now bank.old).nodes) }
    ensures form { IfOk result (λ answer. answer ≡ (guarded_from (B.kinds book.now) guard.test guard.at guard.width new.now 0 table.now bank.old).value) }
    ensures grows { Extends bank.old bank.new }
    ensures bank { IsBank bank.new }
{
    let mut rows = SymTable::new(alloc);
    for number in 0..table.len() {
        let row = guarded_at(
            alloc,
            bank,
            book,
            guard,
            number,
            new,
            table[number].as_slice(),
        )?;
        rows.push(row)?;
    }
    Ok(rows)
}

/// One row where the test is 1 and the place has this number, and else the other. A number with more digits than the place is never the place.
fn guarded_at<B: Book>(
    alloc: Global,
    bank: &mut Bank,
    book: &B,
    guard: Guard,
    number: usize,
    yes: &[Id],
    no: &[Id],
) -> Result<SymRow, NoMemory>
    requires bank { IsBank bank.old }
    requires test { HasWidth bank.old guard.test 1 }
    requires place { HasWidth bank.old guard.at guard.width }
    requires width { IsWidth guard.width }
    requires rows { RowsAlike bank.old yes.now no.now }
    ensures nodes { OnOk result (bank.new ≡ (guarded_at (B.kinds book.now) guard.test guard.at guard.width number yes.now no.now bank.old).nodes) }
    ensures form { IfOk result (λ row. row ≡ (guarded_at (B.kinds book.now) guard.test guard.at guard.width number yes.now no.now bank.old).value) }
    ensures grows { Extends bank.old bank.new }
    ensures bank { IsBank bank.new }
{
    if fits(guard.width, number as u64) {
        guarded_split(alloc, bank, book, guard, number, yes, no)
    } else {
        SymRow::from_slice(alloc, no)
    }
}

/// One row where the test is 1 and the place has this number, which fits its width, and else the other.
fn guarded_split<B: Book>(
    alloc: Global,
    bank: &mut Bank,
    book: &B,
    guard: Guard,
    number: usize,
    yes: &[Id],
    no: &[Id],
) -> Result<SymRow, NoMemory>
    requires bank { IsBank bank.old }
    requires test { HasWidth bank.old guard.test 1 }
    requires place { HasWidth bank.old guard.at guard.width }
    requires width { IsWidth guard.width }
    requires number { number < 2 ^ guard.width }
    requires rows { RowsAlike bank.old yes.now no.now }
    ensures nodes { OnOk result (bank.new ≡ (guarded_split (B.kinds book.now) guard.test guard.at guard.width number yes.now no.now bank.old).nodes) }
    ensures form { IfOk result (λ row. row ≡ (guarded_split (B.kinds book.now) guard.test guard.at guard.width number yes.now no.now bank.old).value) }
    ensures grows { Extends bank.old bank.new }
    ensures bank { IsBank bank.new }
{
    let word = Word {
        width: guard.width,
        bits: number as u64,
    };
    let constant = bank.make(Node::Const(word), book)?;
    let b = same(bank, book, guard.at, constant)?;
    let (op, a) = (Op::And, guard.test);
    let both = bank.make(Node::Bin { op, a, b }, book)?;
    write_row(alloc, bank, book, both, b, yes, no)
}
