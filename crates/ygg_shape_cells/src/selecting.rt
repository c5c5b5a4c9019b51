//! Reading a table at a place that is a term.

ghost use Rattle.std.specs.Prelude.{◌≡◌, ℕ, IfOk, OnOk};
ghost use Rattle.ygg_shape_words.specs.ygg_rules.Views.{IsWidth};
ghost use Rattle.ygg_shape_words.specs.ygg_bank.Inputs.{KeepsInputs};
ghost use Rattle.ygg_shape_words.specs.ygg_bank.Nodes.{Extends, HasWidth, IsBank, Stands};
ghost use Rattle.ygg_shape_words.specs.ygg_bank.Values.{KeepsValues};
ghost use Rattle.ygg_shape_cells.specs.Making.{chosen, selected, selected_by_number, selected_within};
ghost use Rattle.ygg_shape_cells.specs.Meaning.{AddsAtMostZero, IsConstant, IsRead};
ghost use Rattle.ygg_shape_cells.specs.Terms.{AreRows, IsRow, IsTable, TableStands};

use crate::cells::{row_or_zeros, zeros};
use crate::merging::merge_row;
use crate::places::{TermPlace, where_at};
use crate::terms::{SymRow, SymTable};
use std::alloc::Global;
use ygg_shape_words::{Bank, Book, Id, NoMemory, Node, known};

/// How many picks of places one within another a place is looked through.
pub const PLACE_DEPTH: u32 = 2;

/// The row at a place of a table, counted from 0, and zeros past the end, in every environment. Where the place is a constant no pick is
/// made. Where it is a pick of two places, the answer picks one of the rows there. Else a chain of picks over all rows is made. Its only
/// error is out of memory, after which the bank may have more nodes.
pub fn select<B: Book>(
    alloc: Global,
    bank: &mut Bank,
    book: &B,
    table: &SymTable,
    at: Id,
) -> Result<SymRow, NoMemory>
    requires table { TableStands bank.old table.now }
    requires at { Stands bank.old at }
    ensures nodes { OnOk result (bank.new ≡ (selected (B.kinds book.now) table.now at bank.old).nodes) }
    ensures form { IfOk result (λ row. row ≡ (selected (B.kinds book.now) table.now at bank.old).value) }
    ensures shape { (words width : ℕ) → IsTable bank.old words width table.now → IfOk result (IsRow bank.new words width) }
    ensures value { IfOk result (IsRead bank.new table.now at) }
    ensures constant { IsConstant bank.old at → OnOk result (AddsAtMostZero bank.old bank.new) }
    ensures grows { Extends bank.old bank.new }
    ensures keeps { KeepsValues bank.old bank.new }
    ensures bank { IsBank bank.new }
    ensures inputs { OnOk result (KeepsInputs bank.old bank.new) }
{
    // the bank's nodes stand in order
    let _ = bank.len();
    select_within(alloc, bank, book, PLACE_DEPTH, table.as_slice(), at)
}

/// The row at a place that may be so many picks of places one within another.
fn select_within<B: Book>(
    alloc: Global,
    bank: &mut Bank,
    book: &B,
    depth: u32,
    table: &[SymRow],
    at: Id,
) -> Result<SymRow, NoMemory>
    requires bank { IsBank bank.old }
    requires table { TableStands bank.old table.now }
    requires at { Stands bank.old at }
    ensures nodes { OnOk result (bank.new ≡ (selected_within (B.kinds book.now) table.now depth at bank.old).nodes) }
    ensures form { IfOk result (λ row. row ≡ (selected_within (B.kinds book.now) table.now depth at bank.old).value) }
    ensures shape { (words width : ℕ) → IsTable bank.old words width table.now → IfOk result (IsRow bank.new words width) }
    ensures grows { Extends bank.old bank.new }
    ensures bank { IsBank bank.new }
{
    if depth == 0 {
        return select_by_number(alloc, bank, book, table, at);
    }
    match bank.node(at) {
        Node::Pick { test, yes, no } => {
            let one = select_within(alloc, bank, book, depth - 1, table, yes)?;
            let two = select_within(alloc, bank, book, depth - 1, table, no)?;
            merge_row(alloc, bank, book, test, one.as_slice(), two.as_slice())
        }
        _ => select_by_number(alloc, bank, book, table, at),
    }
}

/// The row at a place, whose number is compared with that of each row where it isn't known.
fn select_by_number<B: Book>(
    alloc: Global,
    bank: &mut Bank,
    book: &B,
    table: &[SymRow],
    at: Id,
) -> Result<SymRow, NoMemory>
    requires bank { IsBank bank.old }
    requires table { TableStands bank.old table.now }
    requires at { Stands bank.old at }
    ensures nodes { OnOk result (bank.new ≡ (selected_by_number (B.kinds book.now) table.now at bank.old).nodes) }
    ensures form { IfOk result (λ row. row ≡ (selected_by_number (B.kinds book.now) table.now at bank.old).value) }
    ensures grows { Extends bank.old bank.new }
    ensures bank { IsBank bank.new }
{
    match known(bank, at) {
        Some(place) => row_or_zeros(alloc, bank, book, table, place),
        None => {
            let width = bank.width(at);
            let past = zeros(alloc, bank, book, table)?;
            choose(alloc, bank, book, TermPlace { at, width }, past, table)
        }
    }
}

/// The row of the table at a place, and `past` where the place is past the end.
fn choose<B: Book>(
    alloc: Global,
    bank: &mut Bank,
    book: &B,
    place: TermPlace,
    past: SymRow,
    table: &[SymRow],
) -> Result<SymRow, NoMemory>
    requires bank { IsBank bank.old }
    requires place { HasWidth bank.old place.at place.width }
    requires width { IsWidth place.width }
    requires rows { AreRows bank.old table.now past }
    ensures nodes { OnOk result (bank.new ≡ (chosen (B.kinds book.now) place.at place.width past 0 table.now bank.old).nodes) }
    ensures form { IfOk result (λ row. row ≡ (chosen (B.kinds book.now) place.at place.width past 0 table.now bank.old).value) }
    ensures grows { Extends bank.old bank.new }
    ensures bank { IsBank bank.new }
{
    let mut row = past;
    for number in 0..table.len() {
        row = where_at(
            alloc,
            bank,
            book,
            place,
            number,
            table[number].as_slice(),
            row.as_slice(),
        )?;
    }
    Ok(row)
}
