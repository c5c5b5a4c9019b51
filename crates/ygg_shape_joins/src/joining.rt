//! One value where a test is 1, and else another, in which picks of one word under two tests are one pick.

ghost use Rattle.std.specs.Prelude.{◌≡◌, IfOk, OnOk};
ghost use Rattle.ygg_shape_words.specs.ygg_bank.Inputs.{KeepsInputs};
ghost use Rattle.ygg_shape_words.specs.ygg_bank.Nodes.{Extends, HasWidth, IsBank};
ghost use Rattle.ygg_shape_words.specs.ygg_bank.Values.{KeepsValues};
ghost use Rattle.ygg_value.specs.declared.shape.Shape.{Shape};
ghost use Rattle.ygg_shape_joins.specs.Joining.{joined, joined_row, joined_rows};
ghost use Rattle.ygg_shape_cells.specs.Meaning.{IsMerged};
ghost use Rattle.ygg_shape_cells.specs.Terms.{AreAlike, HasShape, RowsAlike, TablesAlike};

use crate::words::join_word;
use std::alloc::Global;
use ygg_list::Duplicate;
use ygg_shape_cells::{SymRow, SymTable, SymValue};
use ygg_shape_words::{Bank, Book, Id, NoMemory};

/// The value that is `yes` where the test is 1, and `no` where it is 0, in every environment. It picks word by word, asks nothing of words that are
/// one term, and joins the tests where the word of `no` is a pick of that of `yes`. Its only error is out of memory, after which the bank may have
/// more nodes.
pub fn join<B: Book>(
    alloc: Global,
    bank: &mut Bank,
    book: &B,
    test: Id,
    yes: &SymValue,
    no: &SymValue,
) -> Result<SymValue, NoMemory>
    requires test { HasWidth bank.old test 1 }
    requires values { AreAlike bank.old yes.now no.now }
    ensures nodes { OnOk result (bank.new ≡ (joined (B.kinds book.now) test yes.now no.now bank.old).nodes) }
    ensures form { IfOk result (λ answer. answer ≡ (joined (B.kinds book.now) test yes.now no.now bank.old).value) }
    ensures shape { (s : Shape) → HasShape bank.old s yes.now → HasShape bank.old s no.now → IfOk result (HasShape bank.new s) }
    ensures value { IfOk result (IsMerged bank.new test yes.now no.now) }
    ensures grows { Extends bank.old bank.new }
    ensures keeps { KeepsValues bank.old bank.new }
    ensures bank { IsBank bank.new }
    ensures inputs { OnOk result (KeepsInputs bank.old bank.new) }
{
    // the bank's nodes stand in order
    let _ = bank.len();
    join_by(alloc, bank, book, test, yes, no)
}

/// What `join` does.
fn join_by<B: Book>(
    alloc: Global,
    bank: &mut Bank,
    book: &B,
    test: Id,
    yes: &SymValue,
    no: &SymValue,
) -> Result<SymValue, NoMemory>
    requires bank { IsBank bank.old }
    requires test { HasWidth bank.old test 1 }
    requires values { AreAlike bank.old yes.now no.now }
    ensures nodes { OnOk result (bank.new ≡ (joined (B.kinds book.now) test yes.now no.now bank.old).nodes) }
    ensures form { IfOk result (λ answer. answer ≡ (joined (B.kinds book.now) test yes.now no.now bank.old).value) }
    ensures grows { Extends bank.old bank.new }
    ensures bank { IsBank bank.new }
{
    match (yes, no) {
        (SymValue::Word(yes), SymValue::Word(no)) => {
            Ok(SymValue::Word(join_word(bank, book, test, *yes, *no)?))
        }
        (SymValue::Row(yes), SymValue::Row(no)) => Ok(SymValue::Row(join_row(
            alloc,
            bank,
            book,
            test,
            yes.as_slice(),
            no.as_slice(),
        )?)),
        (SymValue::Table(yes), SymValue::Table(no)) => Ok(SymValue::Table(join_rows(
            alloc,
            bank,
            book,
            test,
            yes.as_slice(),
            no.as_slice(),
        )?)),
        _ => yes.duplicate(alloc),
    }
}

/// One table where the test is 1, and else the other.
fn join_rows<B: Book>(
    alloc: Global,
    bank: &mut Bank,
    book: &B,
    test: Id,
    yes: &[SymRow],
    no: &[SymRow],
) -> Result<SymTable, NoMemory>
    requires bank { IsBank bank.old }
    requires test { HasWidth bank.old test 1 }
    requires rows { TablesAlike bank.old yes.now no.now }
    ensures nodes { OnOk result (bank.new ≡ (joined_rows (B.kinds book.now) test yes.now no.now bank.old).nodes) }
    ensures form { IfOk result (λ table. table ≡ (joined_rows (B.kinds book.now) test yes.now no.now bank.old).value) }
    ensures grows { Extends bank.old bank.new }
    ensures bank { IsBank bank.new }
{
    let mut table = SymTable::new(alloc);
    for place in 0..yes.len() {
        let row = join_row(
            alloc,
            bank,
            book,
            test,
            yes[place].as_slice(),
            no[place].as_slice(),
        )?;
        table.push(row)?;
    }
    Ok(table)
}

/// One row where the test is 1, and else the other.
fn join_row<B: Book>(
    alloc: Global,
    bank: &mut Bank,
    book: &B,
    test: Id,
    yes: &[Id],
    no: &[Id],
) -> Result<SymRow, NoMemory>
    requires bank { IsBank bank.old }
    requires test { HasWidth bank.old test 1 }
    requires rows { RowsAlike bank.old yes.now no.now }
    ensures nodes { OnOk result (bank.new ≡ (joined_row (B.kinds book.now) test yes.now no.now bank.old).nodes) }
    ensures form { IfOk result (λ row. row ≡ (joined_row (B.kinds book.now) test yes.now no.now bank.old).value) }
    ensures grows { Extends bank.old bank.new }
    ensures bank { IsBank bank.new }
{
    let mut row = SymRow::new(alloc);
    for place in 0..yes.len() {
        let word = join_word(bank, book, test, yes[place], no[place])?;
        row.push(word)?;
    }
    Ok(row)
}
