//! Lists of values, and zeros of a shape.

ghost use Rattle.std.specs.Prelude.{◌≡◌, List, replicate, IfOk, OnOk};
ghost use Rattle.ygg_value.specs.Shapes.{IsShape};
ghost use Rattle.ygg_shape_words.specs.ygg_rules.Views.{IsWidth};
ghost use Rattle.ygg_shape_words.specs.ygg_bank.Inputs.{KeepsInputs};
ghost use Rattle.ygg_shape_words.specs.ygg_bank.Nodes.{Extends, HasWidth, IsBank};
ghost use Rattle.ygg_shape_words.specs.ygg_bank.Values.{KeepsValues};
ghost use Rattle.ygg_shape_cells.specs.Making.{zeros};
ghost use Rattle.ygg_value.specs.declared.shape.Shape.{Shape};
ghost use Rattle.ygg_shape_cells.specs.Terms.{AreShaped, IsShaped};
ghost use Rattle.ygg_shape_cells.specs.Wholes.{AllAlike, AreMerged, IsZero, merged_all, zero_made};

use crate::merging::merge;
use crate::terms::{SymRow, SymTable, SymValue, SymValues};
use std::alloc::Global;
use ygg_shape_words::{Bank, Book, Id, NoMemory, Node};
use ygg_value::{Shape, Word};

/// The values that are those of `yes` where the test is 1, and those of `no` where it is 0, in every environment. Values that are one term
/// word by word ask nothing. Its only error is out of memory, after which the bank may have more nodes.
pub fn merge_all<B: Book>(
    alloc: Global,
    bank: &mut Bank,
    book: &B,
    test: Id,
    yes: &SymValues,
    no: &SymValues,
) -> Result<SymValues, NoMemory>
    requires test { HasWidth bank.old test 1 }
    requires values { AllAlike bank.old yes.now no.now }
    ensures nodes { OnOk result (bank.new ≡ (merged_all (B.kinds book.now) test yes.now no.now bank.old).nodes) }
    ensures form { IfOk result (λ answers. answers ≡ (merged_all (B.kinds book.now) test yes.now no.now bank.old).value) }
    ensures shape { (shapes : List Shape) → AreShaped bank.old shapes yes.now → AreShaped bank.old shapes no.now →
        IfOk result (AreShaped bank.new shapes) }
    ensures value { IfOk result (AreMerged bank.new test yes.now no.now) }
    ensures grows { Extends bank.old bank.new }
    ensures keeps { KeepsValues bank.old bank.new }
    ensures bank { IsBank bank.new }
    ensures inputs { OnOk result (KeepsInputs bank.old bank.new) }
{
    // the bank's nodes stand in order
    let _ = bank.len();
    merge_all_by(alloc, bank, book, test, yes.as_slice(), no.as_slice())
}

/// What `merge_all` does.
fn merge_all_by<B: Book>(
    alloc: Global,
    bank: &mut Bank,
    book: &B,
    test: Id,
    yes: &[SymValue],
    no: &[SymValue],
) -> Result<SymValues, NoMemory>
    requires bank { IsBank bank.old }
    requires test { HasWidth bank.old test 1 }
    requires values { AllAlike bank.old yes.now no.now }
    ensures nodes { OnOk result (bank.new ≡ (merged_all (B.kinds book.now) test yes.now no.now bank.old).nodes) }
    ensures form { IfOk result (λ answers. answers ≡ (merged_all (B.kinds book.now) test yes.now no.now bank.old).value) }
    ensures grows { Extends bank.old bank.new }
    ensures bank { IsBank bank.new }
{
    let mut answers = SymValues::new(alloc);
    for place in 0..yes.len() {
        let answer = merge(alloc, bank, book, test, &yes[place], &no[place])?;
        answers.push(answer)?;
    }
    Ok(answers)
}

/// The value of a shape whose numbers are all 0, in every environment. Its only error is out of memory, after which the bank may have one
/// more node.
pub fn zero<B: Book>(
    alloc: Global,
    bank: &mut Bank,
    book: &B,
    shape: Shape,
) -> Result<SymValue, NoMemory>
    requires { IsShape shape }
    ensures nodes { OnOk result (bank.new ≡ (zero_made (B.kinds book.now) shape bank.old).nodes) }
    ensures form { IfOk result (λ answer. answer ≡ (zero_made (B.kinds book.now) shape bank.old).value) }
    ensures shape { IfOk result (IsShaped bank.new shape) }
    ensures value { IfOk result (IsZero bank.new shape) }
    ensures grows { Extends bank.old bank.new }
    ensures keeps { KeepsValues bank.old bank.new }
    ensures bank { IsBank bank.new }
    ensures inputs { OnOk result (KeepsInputs bank.old bank.new) }
{
    zero_by(alloc, bank, book, shape)
}

/// What `zero` does.
fn zero_by<B: Book>(
    alloc: Global,
    bank: &mut Bank,
    book: &B,
    shape: Shape,
) -> Result<SymValue, NoMemory>
    requires { IsShape shape }
    ensures nodes { OnOk result (bank.new ≡ (zero_made (B.kinds book.now) shape bank.old).nodes) }
    ensures form { IfOk result (λ answer. answer ≡ (zero_made (B.kinds book.now) shape bank.old).value) }
    ensures grows { Extends bank.old bank.new }
    ensures bank { IsBank bank.new }
{
    match shape {
        Shape::Word { width } => {
            let zero = bank.make(Node::Const(Word { width, bits: 0 }), book)?;
            Ok(SymValue::Word(zero))
        }
        Shape::Row { words, width } => {
            let row = zero_row(alloc, bank, book, words, width)?;
            Ok(SymValue::Row(row))
        }
        Shape::Table { rows, words, width } => {
            let row = zero_row(alloc, bank, book, words, width)?;
            let table = repeated(alloc, &row, rows)?;
            Ok(SymValue::Table(table))
        }
    }
}

/// A row of so many zeros.
fn zero_row<B: Book>(
    alloc: Global,
    bank: &mut Bank,
    book: &B,
    words: u8,
    width: u8,
) -> Result<SymRow, NoMemory>
    requires { IsWidth width }
    ensures nodes { OnOk result (bank.new ≡ (zeros (B.kinds book.now) words width bank.old).nodes) }
    ensures form { IfOk result (λ row. row ≡ (zeros (B.kinds book.now) words width bank.old).value) }
    ensures grows { Extends bank.old bank.new }
    ensures bank { IsBank bank.new }
{
    let zero = bank.make(Node::Const(Word { width, bits: 0 }), book)?;
    Ok(SymRow::from_vec(vec![in alloc; zero; words as usize]?))
}

/// A table of so many copies of a row.
fn repeated(alloc: Global, row: &SymRow, rows: u16) -> Result<SymTable, NoMemory>
    ensures { IfOk result (λ table. table ≡ replicate rows row.now) }
{
    let mut table = SymTable::new(alloc);
    for _place in 0..rows {
        table.push(row.copy(alloc)?)?;
    }
    Ok(table)
}
