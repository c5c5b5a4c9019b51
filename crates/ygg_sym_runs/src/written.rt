//! Terms with a part written anew.

ghost use Rattle.std.specs.Prelude.{◌≡◌, [], ◌∷◌, IfOk, OnOk};
ghost use Rattle.ygg_sym_runs.specs.ygg_bank.Nodes.{Extends, IsBank};
ghost use Rattle.ygg_sym_runs.specs.Lower.{KeepsSingle};
ghost use Rattle.ygg_sym_runs.specs.Putting.{put_made};
ghost use Rattle.ygg_sym_runs.specs.Ready.{CanPut};
ghost use Rattle.ygg_sym_runs.specs.ygg_shape_cells.declared.terms.SymValue.TheVariants as value;

use crate::{Bank, Book, Id, NoMemory, SymTable, SymValue, id_in, select, store, store_word};
use std::alloc::Global;

/// The value with the part at these places written anew, the outermost place first; with no place, the new value. Its only error is out of
/// memory, after which the bank may have more nodes.
pub fn put<B: Book>(
    alloc: Global,
    bank: &mut Bank,
    book: &B,
    old: &SymValue,
    places: &[Id],
    new: SymValue,
) -> Result<SymValue, NoMemory>
    requires can { CanPut bank.old old.now places.now new }
    ensures nodes { OnOk result (bank.new ≡ (put_made (B.kinds book.now) old.now places.now new bank.old).nodes) }
    ensures form { IfOk result (λ x. x ≡ (put_made (B.kinds book.now) old.now places.now new bank.old).value) }
    ensures grows { Extends bank.old bank.new }
    ensures bank { IsBank bank.new }
    ensures single { OnOk result (KeepsSingle bank.old bank.new) }
{
    // the bank's nodes stand in order
    let _ = bank.len();
    put_by(alloc, bank, book, old, places, new)
}

/// What `put` does.
fn put_by<B: Book>(
    alloc: Global,
    bank: &mut Bank,
    book: &B,
    old: &SymValue,
    places: &[Id],
    new: SymValue,
) -> Result<SymValue, NoMemory>
    requires can { CanPut bank.old old.now places.now new }
    requires bank { IsBank bank.old }
    ensures nodes { OnOk result (bank.new ≡ (put_made (B.kinds book.now) old.now places.now new bank.old).nodes) }
    ensures form { IfOk result (λ x. x ≡ (put_made (B.kinds book.now) old.now places.now new bank.old).value) }
    ensures grows { Extends bank.old bank.new }
    ensures bank { IsBank bank.new }
{
    if places.len() == 0 {
        return Ok(new);
    }
    match old {
        SymValue::Word(term) => Ok(SymValue::Word(*term)),
        SymValue::Row(row) => {
            let written = store_word(alloc, bank, book, row, places[0], id_in(&new))?;
            Ok(SymValue::Row(written))
        }
        SymValue::Table(table) => {
            if places.len() == 1 {
                put_row(alloc, bank, book, table, places[0], &new)
            } else {
                put_cell(alloc, bank, book, table, places[0], places[1], &new)
            }
        }
    }
}

/// A table with a row written anew.
fn put_row<B: Book>(
    alloc: Global,
    bank: &mut Bank,
    book: &B,
    table: &SymTable,
    at: Id,
    new: &SymValue,
) -> Result<SymValue, NoMemory>
    requires can { CanPut bank.old (value.Table table.now) (at ∷ []) new.now }
    requires bank { IsBank bank.old }
    ensures nodes { OnOk result (bank.new ≡ (put_made (B.kinds book.now) (value.Table table.now) (at ∷ []) new.now bank.old).nodes) }
    ensures form { IfOk result (λ x. x ≡ (put_made (B.kinds book.now) (value.Table table.now) (at ∷ []) new.now bank.old).value) }
    ensures grows { Extends bank.old bank.new }
    ensures bank { IsBank bank.new }
{
    match new {
        SymValue::Row(row) => {
            let written = store(alloc, bank, book, table, at, row)?;
            Ok(SymValue::Table(written))
        }
        SymValue::Word(_) => unreachable!(),
        SymValue::Table(_) => unreachable!(),
    }
}

/// A table with a word of a row written anew.
fn put_cell<B: Book>(
    alloc: Global,
    bank: &mut Bank,
    book: &B,
    table: &SymTable,
    at: Id,
    within: Id,
    new: &SymValue,
) -> Result<SymValue, NoMemory>
    requires can { CanPut bank.old (value.Table table.now) (at ∷ within ∷ []) new.now }
    requires bank { IsBank bank.old }
    ensures nodes { OnOk result (bank.new ≡ (put_made (B.kinds book.now) (value.Table table.now) (at ∷ within ∷ []) new.now bank.old).nodes) }
    ensures form { IfOk result (λ x. x ≡ (put_made (B.kinds book.now) (value.Table table.now) (at ∷ within ∷ []) new.now bank.old).value) }
    ensures grows { Extends bank.old bank.new }
    ensures bank { IsBank bank.new }
{
    let row = select(alloc, bank, book, table, at)?;
    let written = store_word(alloc, bank, book, &row, within, id_in(new))?;
    let answer = store(alloc, bank, book, table, at, &written)?;
    Ok(SymValue::Table(answer))
}
