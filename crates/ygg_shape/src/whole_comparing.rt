//! Comparing lists of values: the term that says whether they are equal one by one.

ghost use Rattle.std.specs.Prelude.{◌≡◌, IfOk, OnOk, All};
ghost use Rattle.ygg_shape_cells.specs.ygg_bank.Inputs.{KeepsInputs};
ghost use Rattle.ygg_shape_cells.specs.ygg_bank.Making.{made};
ghost use Rattle.ygg_shape_cells.specs.ygg_bank.Nodes.{Extends, HasWidth, IsBank};
ghost use Rattle.ygg_shape_cells.specs.ygg_bank.Values.{KeepsValues};
ghost use Rattle.ygg_shape_cells.specs.ygg_bank.declared.node.Node.TheVariants.{Bin};
ghost use Rattle.ygg_value.specs.declared.operation.Op.TheVariants.{And};
ghost use Rattle.ygg_shape_cells.specs.Lists.{each_two};
ghost use Rattle.ygg_shape_cells.specs.Wholes.{AllAlike};
ghost use Rattle.ygg_shape.specs.Comparing.{AreCompared, IsDigit, all_compared, compared, conjunction};

use crate::comparing::equal;
use std::alloc::Global;
use ygg_shape_cells::{Bank, Book, Id, NoMemory, Node, SymValue};
use ygg_value::{Op, Word};

/// The term that is 1 where all values are equal, one by one, and 0 where some aren't, in every environment. Its only error is out of
/// memory, after which the bank may have more nodes.
pub fn equal_all<B: Book>(
    alloc: Global,
    bank: &mut Bank,
    book: &B,
    ones: &[SymValue],
    twos: &[SymValue],
) -> Result<Id, NoMemory>
    requires { AllAlike bank.old ones.now twos.now }
    ensures nodes { OnOk result (bank.new ≡ (all_compared (B.kinds book.now) ones.now twos.now bank.old).nodes) }
    ensures form { IfOk result (λ id. id ≡ (all_compared (B.kinds book.now) ones.now twos.now bank.old).value) }
    ensures width { IfOk result (λ id. HasWidth bank.new id 1) }
    ensures value { IfOk result (AreCompared bank.new ones.now twos.now) }
    ensures grows { Extends bank.old bank.new }
    ensures keeps { KeepsValues bank.old bank.new }
    ensures bank { IsBank bank.new }
    ensures inputs { OnOk result (KeepsInputs bank.old bank.new) }
{
    // the bank's nodes stand in order
    let _ = bank.len();
    equal_all_by(alloc, bank, book, ones, twos)
}

/// What `equal_all` does.
fn equal_all_by<B: Book>(
    alloc: Global,
    bank: &mut Bank,
    book: &B,
    ones: &[SymValue],
    twos: &[SymValue],
) -> Result<Id, NoMemory>
    requires bank { IsBank bank.old }
    requires values { AllAlike bank.old ones.now twos.now }
    ensures nodes { OnOk result (bank.new ≡ (all_compared (B.kinds book.now) ones.now twos.now bank.old).nodes) }
    ensures form { IfOk result (λ id. id ≡ (all_compared (B.kinds book.now) ones.now twos.now bank.old).value) }
    ensures grows { Extends bank.old bank.new }
    ensures bank { IsBank bank.new }
{
    let digits = equals(alloc, bank, book, ones, twos)?;
    join(bank, book, digits.as_slice())
}

/// For each place whether the values there are equal.
fn equals<B: Book>(
    alloc: Global,
    bank: &mut Bank,
    book: &B,
    ones: &[SymValue],
    twos: &[SymValue],
) -> Result<Vec<Id>, NoMemory>
    requires bank { IsBank bank.old }
    requires values { AllAlike bank.old ones.now twos.now }
    ensures nodes { OnOk result (bank.new ≡ (each_two (compared (B.kinds book.now)) ones.now twos.now bank.old).nodes) }
    ensures form { IfOk result (λ digits. digits.items ≡ (each_two (compared (B.kinds book.now)) ones.now twos.now bank.old).value) }
    ensures digits { IfOk result (λ digits. All (IsDigit bank.new) digits.items) }
    ensures grows { Extends bank.old bank.new }
    ensures bank { IsBank bank.new }
{
    let mut digits = Vec::new(alloc);
    for place in 0..ones.len() {
        let digit = equal(bank, book, &ones[place], &twos[place])?;
        digits.push(digit)?;
    }
    Ok(digits)
}

/// Whether all of these digits are 1, joined from the last one on.
fn join<B: Book>(bank: &mut Bank, book: &B, digits: &[Id]) -> Result<Id, NoMemory>
    requires bank { IsBank bank.old }
    requires digits { All (IsDigit bank.old) digits.now }
    ensures nodes { OnOk result (bank.new ≡ (conjunction (B.kinds book.now) digits.now bank.old).nodes) }
    ensures form { IfOk result (λ id. id ≡ (conjunction (B.kinds book.now) digits.now bank.old).value) }
    ensures grows { Extends bank.old bank.new }
    ensures bank { IsBank bank.new }
{
    let mut all = bank.make(Node::Const(Word { width: 1, bits: 1 }), book)?;
    let mut left = digits.len();
    while left > 0 {
        left -= 1;
        all = join_one(bank, book, digits[left], all)?;
    }
    Ok(all)
}

/// Whether two digits are 1.
fn join_one<B: Book>(bank: &mut Bank, book: &B, a: Id, b: Id) -> Result<Id, NoMemory>
    requires one { HasWidth bank.old a 1 }
    requires two { HasWidth bank.old b 1 }
    ensures nodes { OnOk result (bank.new ≡ (made (B.kinds book.now) (Bin And a b) bank.old).nodes) }
    ensures form { IfOk result (λ id. id ≡ (made (B.kinds book.now) (Bin And a b) bank.old).value) }
    ensures width { IfOk result (λ id. HasWidth bank.new id 1) }
    ensures grows { Extends bank.old bank.new }
    ensures bank { IsBank bank.new }
{
    let op = Op::And;
    bank.make(Node::Bin { op, a, b }, book)
}
