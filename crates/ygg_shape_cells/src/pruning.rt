//! Rows where a test is known.

ghost use Rattle.std.specs.Prelude.{ℕ, ◌≡◌, All, IfOk, OnOk};
ghost use Rattle.ygg_shape_words.specs.ygg_bank.Nodes.{Extends, HasWidth, IsBank, Stands};
ghost use Rattle.ygg_shape_cells.specs.Pruning.{given_row};
ghost use Rattle.ygg_shape_cells.specs.Making.{written_row};
ghost use Rattle.ygg_shape_cells.specs.Terms.{IsRow, RowsAlike};

use crate::merging::merge_row;
use crate::terms::SymRow;
use std::alloc::Global;
use ygg_shape_words::{Bank, Book, Id, NoMemory, given};

/// One row where a test is 1, and else the other. The words of the first are taken as they are where `met` is 1, which follows from the test.
pub fn write_row<B: Book>(
    alloc: Global,
    bank: &mut Bank,
    book: &B,
    test: Id,
    met: Id,
    yes: &[Id],
    no: &[Id],
) -> Result<SymRow, NoMemory>
    requires bank { IsBank bank.old }
    requires test { HasWidth bank.old test 1 }
    requires met { Stands bank.old met }
    requires rows { RowsAlike bank.old yes.now no.now }
    ensures nodes { OnOk result (bank.new ≡ (written_row (B.kinds book.now) test met yes.now no.now bank.old).nodes) }
    ensures form { IfOk result (λ row. row ≡ (written_row (B.kinds book.now) test met yes.now no.now bank.old).value) }
    ensures grows { Extends bank.old bank.new }
    ensures bank { IsBank bank.new }
{
    let pruned = given_row(alloc, bank, book, met, true, yes)?;
    merge_row(alloc, bank, book, test, pruned.as_slice(), no)
}

/// What the words of a row are where a test has a value. Its only error is out of memory, after which the bank may have more nodes.
pub fn given_row<B: Book>(
    alloc: Global,
    bank: &mut Bank,
    book: &B,
    test: Id,
    value: bool,
    row: &[Id],
) -> Result<SymRow, NoMemory>
    requires bank { IsBank bank.old }
    requires test { Stands bank.old test }
    requires row { All (Stands bank.old) row.now }
    ensures nodes { OnOk result (bank.new ≡ (given_row (B.kinds book.now) test value row.now bank.old).nodes) }
    ensures form { IfOk result (λ pruned. pruned ≡ (given_row (B.kinds book.now) test value row.now bank.old).value) }
    ensures shape { (n w : ℕ) → IsRow bank.old n w row.now → IfOk result (IsRow bank.new n w) }
    ensures grows { Extends bank.old bank.new }
    ensures bank { IsBank bank.new }
{
    let mut pruned = SymRow::new(alloc);
    for number in 0..row.len() {
        let word = given(bank, book, test, value, row[number])?;
        pruned.push(word)?;
    }
    Ok(pruned)
}
