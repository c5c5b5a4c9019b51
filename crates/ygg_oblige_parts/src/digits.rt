//! Terms of one digit.

ghost use Rattle.std.specs.Prelude.{◌≡◌, ◌<◌, IfOk, OnOk, All};
ghost use Rattle.ygg_value.specs.Words.{word};
ghost use Rattle.ygg_sym_spec.specs.ygg_bank.Making.{made};
ghost use Rattle.ygg_sym_spec.specs.ygg_bank.Nodes.{Extends, HasWidth, IsBank};
ghost use Rattle.ygg_value.specs.declared.operation.Op.TheVariants.{Eq};
ghost use Rattle.ygg_sym_spec.specs.ygg_bank.declared.node.Node.TheVariants.{Bin, Const, Not};
ghost use Rattle.ygg_sym_spec.specs.ygg_sym_runs.Lower.{KeepsSingle};
ghost use Rattle.ygg_oblige_laws.specs.ygg_shape_words.Forms.{WordsAlike};
ghost use Rattle.ygg_oblige_laws.specs.ygg_shape.Replacing.{AreFit};
ghost use Rattle.ygg_oblige_laws.specs.Implied.{implied_made};
ghost use Rattle.ygg_oblige_laws.specs.TermStates.{known_made};
ghost use Rattle.ygg_oblige_parts.specs.Digits.{IsDigit, conjunction};

use ygg_oblige_laws::Replacements;
use ygg_sym_spec::{Bank, Book, Id, NoMemory, Node};
use ygg_value::{Op, Word};

/// The constant of a bit.
pub fn constant<B: Book>(bank: &mut Bank, book: &B, bits: u64) -> Result<Id, NoMemory>
    requires { bits < 2 }
    ensures nodes { OnOk result (bank.new ≡ (made (B.kinds book.now) (Const (word 1 bits)) bank.old).nodes) }
    ensures id { IfOk result (λ id. id ≡ (made (B.kinds book.now) (Const (word 1 bits)) bank.old).value) }
    ensures width { IfOk result (λ id. HasWidth bank.new id 1) }
    ensures grows { Extends bank.old bank.new }
    ensures single { OnOk result (KeepsSingle bank.old bank.new) }
    ensures bank { IsBank bank.new }
{
    bank.make(Node::Const(Word { width: 1, bits }), book)
}

/// An operation on two digits.
pub fn join<B: Book>(bank: &mut Bank, book: &B, op: Op, a: Id, b: Id) -> Result<Id, NoMemory>
    requires one { HasWidth bank.old a 1 }
    requires two { HasWidth bank.old b 1 }
    ensures nodes { OnOk result (bank.new ≡ (made (B.kinds book.now) (Bin op a b) bank.old).nodes) }
    ensures id { IfOk result (λ id. id ≡ (made (B.kinds book.now) (Bin op a b) bank.old).value) }
    ensures width { IfOk result (λ id. HasWidth bank.new id 1) }
    ensures grows { Extends bank.old bank.new }
    ensures single { OnOk result (KeepsSingle bank.old bank.new) }
    ensures bank { IsBank bank.new }
{
    bank.make(Node::Bin { op, a, b }, book)
}

/// Whether a digit is 0.
fn complement<B: Book>(bank: &mut Bank, book: &B, a: Id) -> Result<Id, NoMemory>
    requires { HasWidth bank.old a 1 }
    ensures nodes { OnOk result (bank.new ≡ (made (B.kinds book.now) (Not a) bank.old).nodes) }
    ensures id { IfOk result (λ id. id ≡ (made (B.kinds book.now) (Not a) bank.old).value) }
    ensures width { IfOk result (λ id. HasWidth bank.new id 1) }
    ensures grows { Extends bank.old bank.new }
    ensures bank { IsBank bank.new }
{
    bank.make(Node::Not { a }, book)
}

/// Whether the second digit is 1 where the first is.
pub fn implied<B: Book>(bank: &mut Bank, book: &B, a: Id, b: Id) -> Result<Id, NoMemory>
    requires one { HasWidth bank.old a 1 }
    requires two { HasWidth bank.old b 1 }
    ensures nodes { OnOk result (bank.new ≡ (implied_made (B.kinds book.now) a b bank.old).nodes) }
    ensures id { IfOk result (λ id. id ≡ (implied_made (B.kinds book.now) a b bank.old).value) }
    ensures width { IfOk result (λ id. HasWidth bank.new id 1) }
    ensures grows { Extends bank.old bank.new }
    ensures bank { IsBank bank.new }
{
    let other = complement(bank, book, b)?;
    let broken = join(bank, book, Op::And, a, other)?;
    complement(bank, book, broken)
}

/// Whether two words of one width have one number.
fn equal<B: Book>(bank: &mut Bank, book: &B, a: Id, b: Id) -> Result<Id, NoMemory>
    requires { WordsAlike bank.old a b }
    ensures nodes { OnOk result (bank.new ≡ (made (B.kinds book.now) (Bin Eq a b) bank.old).nodes) }
    ensures id { IfOk result (λ id. id ≡ (made (B.kinds book.now) (Bin Eq a b) bank.old).value) }
    ensures width { IfOk result (λ id. HasWidth bank.new id 1) }
    ensures grows { Extends bank.old bank.new }
    ensures bank { IsBank bank.new }
{
    bank.make(Node::Bin { op: Op::Eq, a, b }, book)
}

/// Whether each input has the value of the term that stands for it, joined from the last one on.
pub fn known<B: Book>(
    bank: &mut Bank,
    book: &B,
    replacements: &Replacements,
) -> Result<Id, NoMemory>
    requires { AreFit bank.old replacements.now }
    ensures nodes { OnOk result (bank.new ≡ (known_made (B.kinds book.now) replacements.now bank.old).nodes) }
    ensures id { IfOk result (λ id. id ≡ (known_made (B.kinds book.now) replacements.now bank.old).value) }
    ensures width { IfOk result (λ id. HasWidth bank.new id 1) }
    ensures grows { Extends bank.old bank.new }
    ensures bank { IsBank bank.new }
{
    let items = replacements.as_slice();
    let mut known = constant(bank, book, 1)?;
    let mut left = items.len();
    while left > 0 {
        left -= 1;
        let item = items[left];
        let same = equal(bank, book, item.input, item.term)?;
        known = join(bank, book, Op::And, same, known)?;
    }
    Ok(known)
}

/// Whether all of these digits are 1, joined from the last one on.
pub fn all<B: Book>(bank: &mut Bank, book: &B, digits: &[Id]) -> Result<Id, NoMemory>
    requires { All (IsDigit bank.old) digits.now }
    ensures nodes { OnOk result (bank.new ≡ (conjunction (B.kinds book.now) digits.now bank.old).nodes) }
    ensures id { IfOk result (λ id. id ≡ (conjunction (B.kinds book.now) digits.now bank.old).value) }
    ensures width { IfOk result (λ id. HasWidth bank.new id 1) }
    ensures grows { Extends bank.old bank.new }
    ensures bank { IsBank bank.new }
{
    let mut all = constant(bank, book, 1)?;
    let mut left = digits.len();
    while left > 0 {
        left -= 1;
        all = join(bank, book, Op::And, digits[left], all)?;
    }
    Ok(all)
}
