//! The two words that are equal where a sum is 0.

ghost use Rattle.std.specs.Prelude.{◌≡◌, ◌<◌, ◌^◌, IfOk, OnOk};
ghost use Rattle.ygg_value.specs.Words.{word};
ghost use Rattle.ygg_shape_words.specs.ygg_bank.Making.{made};
ghost use Rattle.ygg_shape_words.specs.ygg_bank.declared.node.Node.TheVariants as node;
ghost use Rattle.ygg_value.specs.declared.operation.Op.TheVariants as op;
ghost use Rattle.ygg_shape_words.specs.ygg_rules.Views.{IsWidth};
ghost use Rattle.ygg_shape_words.specs.ygg_bank.Nodes.{Extends, HasWidth, IsBank};
ghost use Rattle.ygg_shape_sums.specs.Parts.{PartsFit, Sum};
ghost use Rattle.ygg_shape_sums.specs.Sides.{all_more, more, share, side, vanishes};

use crate::parts::{Summand, Total};
use ygg_shape_words::{Bank, Book, Id, NoMemory, Node, same};
use ygg_value::{Op, Word, apply, resize};

/// How often what is there so many times stands on a side: on the first, or its opposite on the second, whichever is less.
fn share(width: u8, second: bool, times: u64) -> u64
    requires { IsWidth width }
    ensures value { result ≡ share width second times }
    ensures fits { result < 2 ^ width }
{
    let word = resize(
        Word {
            width: 64,
            bits: times,
        },
        width,
    );
    let opposite = apply(Op::Sub, Word { width, bits: 0 }, word);
    let first = word.bits <= opposite.bits;
    match (first, second) {
        (true, false) => word.bits,
        (false, true) => opposite.bits,
        _ => 0,
    }
}

/// The constant of this width and number.
pub fn constant<B: Book>(bank: &mut Bank, book: &B, width: u8, bits: u64) -> Result<Id, NoMemory>
    requires width { IsWidth width }
    requires bits { bits < 2 ^ width }
    ensures nodes { OnOk result (bank.new ≡ (made (B.kinds book.now) (node.Const (word width bits)) bank.old).nodes) }
    ensures form { IfOk result (λ id. id ≡ (made (B.kinds book.now) (node.Const (word width bits)) bank.old).value) }
    ensures width { IfOk result (λ id. HasWidth bank.new id width) }
    ensures grows { Extends bank.old bank.new }
    ensures bank { IsBank bank.new }
{
    bank.make(Node::Const(Word { width, bits }), book)
}

/// The sum of two words.
pub fn sum<B: Book>(bank: &mut Bank, book: &B, width: u8, a: Id, b: Id) -> Result<Id, NoMemory>
    requires one { HasWidth bank.old a width }
    requires two { HasWidth bank.old b width }
    ensures nodes { OnOk result (bank.new ≡ (made (B.kinds book.now) (node.Bin op.Add a b) bank.old).nodes) }
    ensures form { IfOk result (λ id. id ≡ (made (B.kinds book.now) (node.Bin op.Add a b) bank.old).value) }
    ensures width { IfOk result (λ id. HasWidth bank.new id width) }
    ensures grows { Extends bank.old bank.new }
    ensures bank { IsBank bank.new }
{
    let op = Op::Add;
    bank.make(Node::Bin { op, a, b }, book)
}

/// The product of two words.
pub fn product<B: Book>(bank: &mut Bank, book: &B, width: u8, a: Id, b: Id) -> Result<Id, NoMemory>
    requires one { HasWidth bank.old a width }
    requires two { HasWidth bank.old b width }
    ensures nodes { OnOk result (bank.new ≡ (made (B.kinds book.now) (node.Bin op.Mul a b) bank.old).nodes) }
    ensures form { IfOk result (λ id. id ≡ (made (B.kinds book.now) (node.Bin op.Mul a b) bank.old).value) }
    ensures width { IfOk result (λ id. HasWidth bank.new id width) }
    ensures grows { Extends bank.old bank.new }
    ensures bank { IsBank bank.new }
{
    let op = Op::Mul;
    bank.make(Node::Bin { op, a, b }, book)
}

/// A term so many times, added to a word.
fn more<B: Book>(
    bank: &mut Bank,
    book: &B,
    width: u8,
    times: u64,
    term: Id,
    so_far: Id,
) -> Result<Id, NoMemory>
    requires bank { IsBank bank.old }
    requires width { IsWidth width }
    requires times { times < 2 ^ width }
    requires term { HasWidth bank.old term width }
    requires so_far { HasWidth bank.old so_far width }
    ensures nodes { OnOk result (bank.new ≡ (more (B.kinds book.now) width times term so_far bank.old).nodes) }
    ensures form { IfOk result (λ id. id ≡ (more (B.kinds book.now) width times term so_far bank.old).value) }
    ensures width { IfOk result (λ id. HasWidth bank.new id width) }
    ensures grows { Extends bank.old bank.new }
    ensures bank { IsBank bank.new }
{
    if times == 0 {
        return Ok(so_far);
    }
    if times == 1 {
        return sum(bank, book, width, so_far, term);
    }
    let count = constant(bank, book, width, times)?;
    let multiple = product(bank, book, width, term, count)?;
    sum(bank, book, width, so_far, multiple)
}

/// The terms of a side, added to a word.
fn all_more<B: Book>(
    bank: &mut Bank,
    book: &B,
    width: u8,
    second: bool,
    parts: &[Summand],
    so_far: Id,
) -> Result<Id, NoMemory>
    requires bank { IsBank bank.old }
    requires width { IsWidth width }
    requires parts { PartsFit bank.old width parts.now }
    requires so_far { HasWidth bank.old so_far width }
    ensures nodes { OnOk result (bank.new ≡ (all_more (B.kinds book.now) width second parts.now so_far bank.old).nodes) }
    ensures form { IfOk result (λ id. id ≡ (all_more (B.kinds book.now) width second parts.now so_far bank.old).value) }
    ensures width { IfOk result (λ id. HasWidth bank.new id width) }
    ensures grows { Extends bank.old bank.new }
    ensures bank { IsBank bank.new }
{
    let mut all = so_far;
    for part in parts {
        let times = share(width, second, part.times);
        all = more(bank, book, width, times, part.term, all)?;
    }
    Ok(all)
}

/// A side: its terms, and its number.
fn side<B: Book>(
    bank: &mut Bank,
    book: &B,
    width: u8,
    second: bool,
    total: &Total,
) -> Result<Id, NoMemory>
    requires bank { IsBank bank.old }
    requires width { IsWidth width }
    requires parts { PartsFit bank.old width total.now.parts }
    ensures nodes { OnOk result (bank.new ≡ (side (B.kinds book.now) width second total.now bank.old).nodes) }
    ensures form { IfOk result (λ id. id ≡ (side (B.kinds book.now) width second total.now bank.old).value) }
    ensures width { IfOk result (λ id. HasWidth bank.new id width) }
    ensures grows { Extends bank.old bank.new }
    ensures bank { IsBank bank.new }
{
    let zero = constant(bank, book, width, 0)?;
    let all = all_more(bank, book, width, second, total.parts(), zero)?;
    let number = share(width, second, total.number());
    let rest = constant(bank, book, width, number)?;
    sum(bank, book, width, all, rest)
}

/// Whether a sum is 0.
pub fn vanishes<B: Book>(
    bank: &mut Bank,
    book: &B,
    width: u8,
    total: &Total,
) -> Result<Id, NoMemory>
    requires bank { IsBank bank.old }
    requires width { IsWidth width }
    requires parts { PartsFit bank.old width total.now.parts }
    ensures nodes { OnOk result (bank.new ≡ (vanishes (B.kinds book.now) width total.now bank.old).nodes) }
    ensures form { IfOk result (λ id. id ≡ (vanishes (B.kinds book.now) width total.now bank.old).value) }
    ensures width { IfOk result (λ id. HasWidth bank.new id 1) }
    ensures grows { Extends bank.old bank.new }
    ensures bank { IsBank bank.new }
{
    let one = side(bank, book, width, false, total)?;
    let two = side(bank, book, width, true, total)?;
    same(bank, book, one, two)
}
