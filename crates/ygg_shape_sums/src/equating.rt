//! The equality of two words that may be sums.

ghost use Rattle.std.specs.Prelude.{◌≡◌, ◌++◌, ◌∷◌, [], IfOk, OnOk};
ghost use Rattle.ygg_shape_words.specs.ygg_rules.Views.{IsWidth};
ghost use Rattle.ygg_shape_words.specs.ygg_bank.Inputs.{KeepsInputs};
ghost use Rattle.ygg_shape_words.specs.ygg_bank.Nodes.{Extends, HasWidth, IsBank};
ghost use Rattle.ygg_shape_words.specs.ygg_bank.Values.{KeepsValues};
ghost use Rattle.ygg_shape_words.specs.Forms.{WordsAlike};
ghost use Rattle.ygg_shape_words.specs.Same.{IsSame};
ghost use Rattle.ygg_shape_sums.specs.Equates.{IsFound, are_sums, compared_words, difference, equated_words, reads_product, shared_difference};
ghost use Rattle.ygg_shape_sums.specs.Equates.{split_as, subtracted, vanishes_by, vanishes_within};
ghost use Rattle.ygg_shape_sums.specs.Parts.{PartsFit, Sum};
ghost use Rattle.ygg_shape_sums.specs.Readings.{FactsFit, fact};
ghost use Rattle.ygg_shape_sums.specs.Splits.{split_of};

use crate::cancelling::cancels;
use crate::gathering::{gather, has_sum};
use crate::parts::{Summand, Total};
use crate::plain::are_plain;
use crate::reading::{Fact, LESS_ONE, with};
use crate::reducing::{any_product, loses_products, reduce};
use crate::remaining::vanishes_left;
use crate::sharing::{INSIDE_LIMIT, shared_inside};
use crate::splitting::split_of;
use ygg_shape_words::{Bank, Book, Id, NoMemory, Node, pick, same};
use ygg_value::Word;

/// How often a comparison of sums may be split.
pub const EQUATE_LIMIT: u32 = 40;

/// How often it may be split where the sums have products of two terms.
pub const PRODUCT_LIMIT: u32 = 200;

/// Whether a sum is 0 where the facts hold, with so many splits one within another.
#[cycle(vanishes)]
fn vanishes_within<B: Book>(
    bank: &mut Bank,
    book: &B,
    width: u8,
    depth: u32,
    left: &mut u32,
    facts: &[Fact],
    total: &Total,
) -> Result<Id, NoMemory>
    requires bank { IsBank bank.old }
    requires width { IsWidth width }
    requires facts { FactsFit bank.old facts.now }
    requires parts { PartsFit bank.old width total.now.parts }
    ensures made { IfOk result (λ id. IsFound (vanishes_within (B.kinds book.now) width depth left.old facts.now total.now) bank.old bank.new id left.new) }
    ensures width { IfOk result (λ id. HasWidth bank.new id 1) }
    ensures grows { Extends bank.old bank.new }
    ensures bank { IsBank bank.new }
{
    if depth == 0 {
        return vanishes_left(bank, book, width, facts, total);
    }
    let sum = reduce(bank, width, facts, total)?;
    vanishes_split(bank, book, width, depth - 1, left, facts, &sum)
}

/// Whether a sum that was reduced is 0 where the facts hold, split where that helps, with so many splits within that one.
#[cycle(vanishes)]
fn vanishes_split<B: Book>(
    bank: &mut Bank,
    book: &B,
    width: u8,
    depth: u32,
    left: &mut u32,
    facts: &[Fact],
    sum: &Total,
) -> Result<Id, NoMemory>
    requires bank { IsBank bank.old }
    requires width { IsWidth width }
    requires facts { FactsFit bank.old facts.now }
    requires parts { PartsFit bank.old width sum.now.parts }
    ensures made { IfOk result (λ id. IsFound (split_as (B.kinds book.now) width (vanishes_within (B.kinds book.now) width depth) left.old facts.now sum.now
        (split_of bank.old width left.old facts.now sum.now.parts)) bank.old bank.new id left.new) }
    ensures width { IfOk result (λ id. HasWidth bank.new id 1) }
    ensures grows { Extends bank.old bank.new }
    ensures bank { IsBank bank.new }
{
    match split_of(bank, width, *left, facts, sum.parts())? {
        None => vanishes_left(bank, book, width, facts, sum),
        Some(test) => {
            *left = left.saturating_sub(1);
            let yes = vanishes_where(bank, book, width, depth, left, facts, test, true, sum)?;
            let no = vanishes_where(bank, book, width, depth, left, facts, test, false, sum)?;
            pick(bank, book, test, yes, no)
        }
    }
}

/// Whether a sum is 0 where the facts hold and a test is this digit.
#[cycle(vanishes)]
fn vanishes_where<B: Book>(
    bank: &mut Bank,
    book: &B,
    width: u8,
    depth: u32,
    left: &mut u32,
    facts: &[Fact],
    test: Id,
    digit: bool,
    sum: &Total,
) -> Result<Id, NoMemory>
    requires bank { IsBank bank.old }
    requires width { IsWidth width }
    requires facts { FactsFit bank.old facts.now }
    requires test { HasWidth bank.old test 1 }
    requires parts { PartsFit bank.old width sum.now.parts }
    ensures made { IfOk result (λ id. IsFound (vanishes_within (B.kinds book.now) width depth left.old (facts.now ++ fact test digit ∷ []) sum.now)
        bank.old bank.new id left.new) }
    ensures width { IfOk result (λ id. HasWidth bank.new id 1) }
    ensures grows { Extends bank.old bank.new }
    ensures bank { IsBank bank.new }
{
    let more = with(bank, facts, test, digit)?;
    vanishes_within(bank, book, width, depth, left, more.as_slice(), sum)
}

/// One word less another. Its only error is out of memory.
fn difference(bank: &Bank, one: Id, two: Id) -> Result<Total, NoMemory>
    ensures { IfOk result (λ (sum : Sum). sum ≡ difference one two) }
{
    let first = Summand {
        times: 1,
        term: one,
    };
    let second = Summand {
        times: LESS_ONE,
        term: two,
    };
    Total::of(bank.allocator(), &[first, second])
}

/// The term that is 1 where two words of one width are equal, and 0 where they aren't, in every environment. Where there are sums or
/// differences, also below picks, one word is subtracted from the other: what stands on both sides goes, and picks are moved out, up to
/// `EQUATE_LIMIT`, or up to `PRODUCT_LIMIT` where products of two terms are in the difference. All else is as `same` has it. Where there are
/// products of two terms, and all goes when they are multiplied out, on both sides of each test among their factors, the answer is the
/// constant 1. Its only error is out of memory, after which the bank may have more nodes.
pub fn equate<B: Book>(bank: &mut Bank, book: &B, one: Id, two: Id) -> Result<Id, NoMemory>
    requires words { WordsAlike bank.old one two }
    ensures nodes { OnOk result (bank.new ≡ (equated_words (B.kinds book.now) one two bank.old).nodes) }
    ensures form { IfOk result (λ id. id ≡ (equated_words (B.kinds book.now) one two bank.old).value) }
    ensures width { IfOk result (λ id. HasWidth bank.new id 1) }
    ensures value { IfOk result (IsSame bank.new one two) }
    ensures grows { Extends bank.old bank.new }
    ensures keeps { KeepsValues bank.old bank.new }
    ensures bank { IsBank bank.new }
    ensures inputs { OnOk result (KeepsInputs bank.old bank.new) }
{
    // the bank's nodes stand in order
    let _ = bank.len();
    equate_by(bank, book, one, two)
}

/// What `equate` does.
fn equate_by<B: Book>(bank: &mut Bank, book: &B, one: Id, two: Id) -> Result<Id, NoMemory>
    requires bank { IsBank bank.old }
    requires words { WordsAlike bank.old one two }
    ensures nodes { OnOk result (bank.new ≡ (equated_words (B.kinds book.now) one two bank.old).nodes) }
    ensures form { IfOk result (λ id. id ≡ (equated_words (B.kinds book.now) one two bank.old).value) }
    ensures width { IfOk result (λ id. HasWidth bank.new id 1) }
    ensures grows { Extends bank.old bank.new }
    ensures bank { IsBank bank.new }
{
    if are_plain(bank, one, two)? {
        return same(bank, book, one, two);
    }
    if cancels(bank, one, two)? {
        bank.make(Node::Const(Word { width: 1, bits: 1 }), book)
    } else {
        compared(bank, book, one, two)
    }
}

/// Whether two words are equal, where nothing more is known of them.
fn compared<B: Book>(bank: &mut Bank, book: &B, one: Id, two: Id) -> Result<Id, NoMemory>
    requires bank { IsBank bank.old }
    requires words { WordsAlike bank.old one two }
    ensures nodes { OnOk result (bank.new ≡ (compared_words (B.kinds book.now) one two bank.old).nodes) }
    ensures form { IfOk result (λ id. id ≡ (compared_words (B.kinds book.now) one two bank.old).value) }
    ensures width { IfOk result (λ id. HasWidth bank.new id 1) }
    ensures grows { Extends bank.old bank.new }
    ensures bank { IsBank bank.new }
{
    if are_sums(bank, one, two)? {
        sums(bank, book, one, two)
    } else {
        same(bank, book, one, two)
    }
}

/// Whether two words are to be compared as sums.
fn are_sums(bank: &Bank, one: Id, two: Id) -> Result<bool, NoMemory>
    requires bank { IsBank bank.now }
    requires words { WordsAlike bank.now one two }
    ensures { IfOk result (λ found. found ≡ are_sums bank.now one two) }
{
    if one.0 == two.0 {
        return Ok(false);
    }
    let total = difference(bank, one, two)?;
    if has_sum(bank, total.parts())? {
        return Ok(true);
    }
    let width = bank.width(one);
    loses_products(bank, width, &total)
}

/// Whether the difference of two words is 0.
fn sums<B: Book>(bank: &mut Bank, book: &B, one: Id, two: Id) -> Result<Id, NoMemory>
    requires bank { IsBank bank.old }
    requires words { WordsAlike bank.old one two }
    ensures nodes { OnOk result (bank.new ≡ (subtracted (B.kinds book.now) one two bank.old).nodes) }
    ensures form { IfOk result (λ id. id ≡ (subtracted (B.kinds book.now) one two bank.old).value) }
    ensures width { IfOk result (λ id. HasWidth bank.new id 1) }
    ensures grows { Extends bank.old bank.new }
    ensures bank { IsBank bank.new }
{
    let total = difference(bank, one, two)?;
    let width = bank.width(one);
    if reads_product(bank, width, &total)? {
        shared(bank, book, width, one, two)
    } else {
        vanishes_by(bank, book, width, EQUATE_LIMIT, &total)
    }
}

/// Whether a sum, read, has products of two terms. Its only error is out of memory.
fn reads_product(bank: &Bank, width: u8, total: &Total) -> Result<bool, NoMemory>
    requires bank { IsBank bank.now }
    requires parts { PartsFit bank.now width total.now.parts }
    ensures { IfOk result (λ found. found ≡ reads_product bank.now total.now) }
{
    let sum = gather(bank, &[], total)?;
    Ok(any_product(bank, sum.parts()))
}

/// Whether the difference of two words is 0, in which picks are sums.
fn shared<B: Book>(bank: &mut Bank, book: &B, width: u8, one: Id, two: Id) -> Result<Id, NoMemory>
    requires bank { IsBank bank.old }
    requires width { IsWidth width }
    requires one { HasWidth bank.old one width }
    requires two { HasWidth bank.old two width }
    ensures nodes { OnOk result (bank.new ≡ (shared_difference (B.kinds book.now) width one two bank.old).nodes) }
    ensures form { IfOk result (λ id. id ≡ (shared_difference (B.kinds book.now) width one two bank.old).value) }
    ensures width { IfOk result (λ id. HasWidth bank.new id 1) }
    ensures grows { Extends bank.old bank.new }
    ensures bank { IsBank bank.new }
{
    let first = shared_inside(bank, book, width, INSIDE_LIMIT, one)?;
    let second = shared_inside(bank, book, width, INSIDE_LIMIT, two)?;
    let total = difference(bank, first, second)?;
    vanishes_by(bank, book, width, PRODUCT_LIMIT, &total)
}

/// Whether a sum is 0, with so many splits.
fn vanishes_by<B: Book>(
    bank: &mut Bank,
    book: &B,
    width: u8,
    count: u32,
    total: &Total,
) -> Result<Id, NoMemory>
    requires bank { IsBank bank.old }
    requires width { IsWidth width }
    requires parts { PartsFit bank.old width total.now.parts }
    ensures nodes { OnOk result (bank.new ≡ (vanishes_by (B.kinds book.now) width count total.now bank.old).nodes) }
    ensures form { IfOk result (λ id. id ≡ (vanishes_by (B.kinds book.now) width count total.now bank.old).value) }
    ensures width { IfOk result (λ id. HasWidth bank.new id 1) }
    ensures grows { Extends bank.old bank.new }
    ensures bank { IsBank bank.new }
{
    let mut left = count;
    vanishes_within(bank, book, width, count, &mut left, &[], total)
}
