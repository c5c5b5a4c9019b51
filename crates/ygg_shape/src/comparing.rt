//! Comparing: the term that says whether two values are equal.

ghost use Rattle.std.specs.Prelude.{◌≡◌, IfOk, OnOk};
ghost use Rattle.ygg_shape_cells.specs.ygg_bank.Inputs.{KeepsInputs};
ghost use Rattle.ygg_shape_cells.specs.ygg_bank.Nodes.{Extends, HasWidth, IsBank};
ghost use Rattle.ygg_shape_cells.specs.ygg_bank.Values.{KeepsValues};
ghost use Rattle.ygg_shape.specs.Comparing.{IsCompared, compared, compared_row, compared_rows};
ghost use Rattle.ygg_shape_cells.specs.Terms.{AreAlike, RowsAlike, TablesAlike};

use crate::equating::equate_rows;
use ygg_shape_cells::{Bank, Book, Id, NoMemory, Node, SymRow, SymValue};
use ygg_shape_sums::equate;
use ygg_value::{Op, Word};

/// The term that is 1 where the two values are equal, and 0 where they aren't, in every environment. Its only error is out of memory,
/// after which the bank may have more nodes.
pub fn equal<B: Book>(
    bank: &mut Bank,
    book: &B,
    one: &SymValue,
    two: &SymValue,
) -> Result<Id, NoMemory>
    requires { AreAlike bank.old one.now two.now }
    ensures nodes { OnOk result (bank.new ≡ (compared (B.kinds book.now) one.now two.now bank.old).nodes) }
    ensures form { IfOk result (λ id. id ≡ (compared (B.kinds book.now) one.now two.now bank.old).value) }
    ensures width { IfOk result (λ id. HasWidth bank.new id 1) }
    ensures value { IfOk result (IsCompared bank.new one.now two.now) }
    ensures grows { Extends bank.old bank.new }
    ensures keeps { KeepsValues bank.old bank.new }
    ensures bank { IsBank bank.new }
    ensures inputs { OnOk result (KeepsInputs bank.old bank.new) }
{
    equal_by(bank, book, one, two)
}

/// What `equal` does.
fn equal_by<B: Book>(
    bank: &mut Bank,
    book: &B,
    one: &SymValue,
    two: &SymValue,
) -> Result<Id, NoMemory>
    requires { AreAlike bank.old one.now two.now }
    ensures nodes { OnOk result (bank.new ≡ (compared (B.kinds book.now) one.now two.now bank.old).nodes) }
    ensures form { IfOk result (λ id. id ≡ (compared (B.kinds book.now) one.now two.now bank.old).value) }
    ensures grows { Extends bank.old bank.new }
    ensures bank { IsBank bank.new }
{
    match (one, two) {
        (SymValue::Word(one), SymValue::Word(two)) => equate(bank, book, *one, *two),
        (SymValue::Row(one), SymValue::Row(two)) => {
            let so_far = bank.make(Node::Const(Word { width: 1, bits: 1 }), book)?;
            compare_row(bank, book, so_far, one.as_slice(), two.as_slice())
        }
        (SymValue::Table(one), SymValue::Table(two)) => {
            let so_far = bank.make(Node::Const(Word { width: 1, bits: 1 }), book)?;
            compare_rows(bank, book, so_far, one.as_slice(), two.as_slice())
        }
        _ => bank.make(Node::Const(Word { width: 1, bits: 0 }), book),
    }
}

/// Whether two tables are equal, joined to what is known so far.
fn compare_rows<B: Book>(
    bank: &mut Bank,
    book: &B,
    so_far: Id,
    one: &[SymRow],
    two: &[SymRow],
) -> Result<Id, NoMemory>
    requires bank { IsBank bank.old }
    requires so_far { HasWidth bank.old so_far 1 }
    requires rows { TablesAlike bank.old one.now two.now }
    ensures nodes { OnOk result (bank.new ≡ (compared_rows (B.kinds book.now) so_far one.now two.now bank.old).nodes) }
    ensures form { IfOk result (λ id. id ≡ (compared_rows (B.kinds book.now) so_far one.now two.now bank.old).value) }
    ensures grows { Extends bank.old bank.new }
    ensures bank { IsBank bank.new }
{
    let mut all = so_far;
    for place in 0..one.len() {
        all = compare_row(
            bank,
            book,
            all,
            one[place].as_slice(),
            two[place].as_slice(),
        )?;
    }
    Ok(all)
}

/// Whether two rows are equal, joined to what is known so far.
fn compare_row<B: Book>(
    bank: &mut Bank,
    book: &B,
    so_far: Id,
    one: &[Id],
    two: &[Id],
) -> Result<Id, NoMemory>
    requires bank { IsBank bank.old }
    requires so_far { HasWidth bank.old so_far 1 }
    requires rows { RowsAlike bank.old one.now two.now }
    ensures nodes { OnOk result (bank.new ≡ (compared_row (B.kinds book.now) so_far one.now two.now bank.old).nodes) }
    ensures form { IfOk result (λ id. id ≡ (compared_row (B.kinds book.now) so_far one.now two.now bank.old).value) }
    ensures width { IfOk result (λ id. HasWidth bank.new id 1) }
    ensures grows { Extends bank.old bank.new }
    ensures bank { IsBank bank.new }
{
    let b = equate_rows(bank, book, one, two)?;
    let op = Op::And;
    bank.make(Node::Bin { op, a: so_far, b }, book)
}
