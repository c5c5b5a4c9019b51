//! Terms that are made of values of terms.

ghost use Rattle.std.specs.Prelude.{◌≡◌, IfOk, OnOk, map, replicate};
ghost use Rattle.ygg_shape.specs.ygg_bank.Nodes.{CanMake, Extends, IsBank, Stands};
ghost use Rattle.ygg_shape.specs.ygg_shape_cells.declared.terms.SymValue.TheVariants.{Row as AsRow};
ghost use Rattle.ygg_sym_runs.specs.Exprs.{applied, equal_made, id_in, part_made, small_made, unequal_made, word_made};
ghost use Rattle.ygg_sym_runs.specs.ExpressionMeaning.{SomeShape};
ghost use Rattle.ygg_sym_runs.specs.Seen.{CanOperate};
ghost use Rattle.ygg_shape.specs.ygg_shape_cells.Terms.{AreAlike};

use std::alloc::Global;
use ygg_shape::{Bank, Book, Id, NoMemory, Node, SymRow, SymValue, equal, select, select_word};
use ygg_shape_nodes::make_small;
use ygg_value::Op;

/// The term that a value is; the first term for a row or a table.
pub fn id_in(value: &SymValue) -> Id
    ensures { result ≡ id_in value.now }
{
    match value {
        SymValue::Word(term) => *term,
        _ => Id(0),
    }
}

/// A word. Its only error is out of memory.
pub fn word<B: Book>(bank: &mut Bank, book: &B, node: Node) -> Result<SymValue, NoMemory>
    requires { CanMake bank.old node }
    ensures nodes { OnOk result (bank.new ≡ (word_made (B.kinds book.now) node bank.old).nodes) }
    ensures form { IfOk result (λ x. x ≡ (word_made (B.kinds book.now) node bank.old).value) }
    ensures grows { Extends bank.old bank.new }
    ensures bank { IsBank bank.new }
{
    let term = bank.make(node, book)?;
    Ok(SymValue::Word(term))
}

/// A word, by the rules on nodes. Its only error is out of memory.
pub fn small<B: Book>(bank: &mut Bank, book: &B, node: Node) -> Result<SymValue, NoMemory>
    requires { CanMake bank.old node }
    ensures nodes { OnOk result (bank.new ≡ (small_made (B.kinds book.now) node bank.old).nodes) }
    ensures form { IfOk result (λ x. x ≡ (small_made (B.kinds book.now) node bank.old).value) }
    ensures grows { Extends bank.old bank.new }
    ensures bank { IsBank bank.new }
{
    let term = make_small(bank, book, node)?;
    Ok(SymValue::Word(term))
}

/// What an operation gives of two values. Its only error is out of memory.
pub fn operated<B: Book>(
    bank: &mut Bank,
    book: &B,
    op: Op,
    one: &SymValue,
    two: &SymValue,
) -> Result<SymValue, NoMemory>
    requires { CanOperate bank.old op one.now two.now }
    ensures nodes { OnOk result (bank.new ≡ (applied (B.kinds book.now) op one.now two.now bank.old).nodes) }
    ensures form { IfOk result (λ x. x ≡ (applied (B.kinds book.now) op one.now two.now bank.old).value) }
    ensures grows { Extends bank.old bank.new }
    ensures bank { IsBank bank.new }
{
    match op {
        Op::Eq => compared(bank, book, one, two),
        Op::Ne => differing(bank, book, one, two),
        _ => {
            let a = id_in(one);
            let b = id_in(two);
            small(bank, book, Node::Bin { op, a, b })
        }
    }
}

/// Whether two values are equal. Its only error is out of memory.
fn compared<B: Book>(
    bank: &mut Bank,
    book: &B,
    one: &SymValue,
    two: &SymValue,
) -> Result<SymValue, NoMemory>
    requires { AreAlike bank.old one.now two.now }
    ensures nodes { OnOk result (bank.new ≡ (equal_made (B.kinds book.now) one.now two.now bank.old).nodes) }
    ensures form { IfOk result (λ x. x ≡ (equal_made (B.kinds book.now) one.now two.now bank.old).value) }
    ensures grows { Extends bank.old bank.new }
    ensures bank { IsBank bank.new }
{
    let term = equal(bank, book, one, two)?;
    Ok(SymValue::Word(term))
}

/// Whether two values differ. Its only error is out of memory.
fn differing<B: Book>(
    bank: &mut Bank,
    book: &B,
    one: &SymValue,
    two: &SymValue,
) -> Result<SymValue, NoMemory>
    requires { AreAlike bank.old one.now two.now }
    ensures nodes { OnOk result (bank.new ≡ (unequal_made (B.kinds book.now) one.now two.now bank.old).nodes) }
    ensures form { IfOk result (λ x. x ≡ (unequal_made (B.kinds book.now) one.now two.now bank.old).value) }
    ensures grows { Extends bank.old bank.new }
    ensures bank { IsBank bank.new }
{
    let a = equal(bank, book, one, two)?;
    small(bank, book, Node::Not { a })
}

/// The word or the row at a place of a value; a word stays. Its only error is out of memory.
pub fn part<B: Book>(
    alloc: Global,
    bank: &mut Bank,
    book: &B,
    whole: SymValue,
    at: Id,
) -> Result<SymValue, NoMemory>
    requires bank { IsBank bank.old }
    requires whole { SomeShape bank.old whole }
    requires at { Stands bank.old at }
    ensures nodes { OnOk result (bank.new ≡ (part_made (B.kinds book.now) whole at bank.old).nodes) }
    ensures form { IfOk result (λ x. x ≡ (part_made (B.kinds book.now) whole at bank.old).value) }
    ensures grows { Extends bank.old bank.new }
    ensures bank { IsBank bank.new }
{
    match &whole {
        SymValue::Word(term) => Ok(SymValue::Word(*term)),
        SymValue::Row(row) => {
            let term = select_word(alloc, bank, book, row, at)?;
            Ok(SymValue::Word(term))
        }
        SymValue::Table(table) => {
            let row = select(alloc, bank, book, table, at)?;
            Ok(SymValue::Row(row))
        }
    }
}

/// A row of so many equal words. Its only error is out of memory.
pub fn filled(alloc: Global, count: u64, word: Id) -> Result<SymValue, NoMemory>
    ensures { IfOk result (λ x. x ≡ AsRow (replicate count word)) }
{
    let words = vec![in alloc; word; count as usize]?;
    Ok(SymValue::Row(SymRow::from_vec(words)))
}

/// The row whose words are these values. Its only error is out of memory.
pub fn row(alloc: Global, parts: &[SymValue]) -> Result<SymValue, NoMemory>
    ensures { IfOk result (λ x. x ≡ AsRow (map id_in parts.now)) }
{
    let mut words = SymRow::new(alloc);
    for part in parts {
        words.push(id_in(part))?;
    }
    Ok(SymValue::Row(words))
}
