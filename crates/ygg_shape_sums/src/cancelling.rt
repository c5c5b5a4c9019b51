//! Two words that are equal where all goes when products are multiplied out.

ghost use Rattle.std.specs.Prelude.{◌≡◌, ◌++◌, ◌∷◌, [], IfOk, OnOk, Some};
ghost use Rattle.ygg_shape_words.specs.ygg_rules.Views.{IsWidth};
ghost use Rattle.ygg_shape_words.specs.ygg_bank.Nodes.{HasWidth, IsBank, Stands};
ghost use Rattle.ygg_shape_words.specs.Forms.{WordsAlike};
ghost use Rattle.ygg_shape_sums.specs.Cancels.{cancels, cancels_within, has_product, inside, is_product, outcome_of, remainder};
ghost use Rattle.ygg_shape_sums.specs.Parts.{PartsAlike};
ghost use Rattle.ygg_shape_sums.specs.Products.{ProductsAlike, single};
ghost use Rattle.ygg_shape_sums.specs.Readings.{FactsFit, fact};

use crate::gathering::{READ_LIMIT, list, look};
use crate::multiplying::expand;
use crate::parts::{Summand, copied};
use crate::products::{Monomial, all_gone, products_test};
use crate::reading::{Decomposition, Fact, LESS_ONE, read, with};
use crate::reducing::products_of;
use ygg_shape_words::{Bank, Id, NoMemory, Node};
use ygg_value::Op;

/// How many differences are multiplied out one within another: one more than the splits between them.
pub const CANCEL_LIMIT: u32 = 7;

/// What is known of a sum that was multiplied out.
#[derive(Clone, Copy, Drop)]
pub enum Outcome {
    /// It is 0.
    Nothing,
    /// It may be another number.
    Open,
    /// It is to be looked at on both sides of this test.
    Split(Id),
}

/// Whether products of two terms are in one word or another, and nothing is left of the one less the other, where products are
/// multiplied out. Its only error is out of memory.
pub fn cancels(bank: &Bank, one: Id, two: Id) -> Result<bool, NoMemory>
    requires bank { IsBank bank.now }
    requires words { WordsAlike bank.now one two }
    ensures { IfOk result (λ gone. gone ≡ cancels bank.now one two) }
{
    if one.0 == two.0 {
        return Ok(false);
    }
    let first = Summand {
        times: 1,
        term: one,
    };
    let second = Summand {
        times: LESS_ONE,
        term: two,
    };
    if has_product(bank, &[first, second])? {
        cancels_within(bank, bank.width(one), CANCEL_LIMIT, one, two, &[])
    } else {
        Ok(false)
    }
}

/// Whether nothing is left of one word less another where the facts hold, with so many splits one within another.
#[cycle(cancels)]
fn cancels_within(
    bank: &Bank,
    width: u8,
    depth: u32,
    one: Id,
    two: Id,
    facts: &[Fact],
) -> Result<bool, NoMemory>
    requires bank { IsBank bank.now }
    requires width { IsWidth width }
    requires one { HasWidth bank.now one width }
    requires two { HasWidth bank.now two width }
    requires facts { FactsFit bank.now facts.now }
    ensures { IfOk result (λ gone. gone ≡ cancels_within depth bank.now width one two facts.now) }
{
    if depth == 0 {
        return Ok(false);
    }
    match remainder(bank, width, facts, one, two)? {
        Outcome::Nothing => Ok(true),
        Outcome::Open => Ok(false),
        Outcome::Split(test) => {
            if !cancels_where(bank, width, depth - 1, one, two, facts, test, true)? {
                return Ok(false);
            }
            cancels_where(bank, width, depth - 1, one, two, facts, test, false)
        }
    }
}

/// Whether nothing is left of one word less another where the facts hold and a test is this digit.
#[cycle(cancels)]
fn cancels_where(
    bank: &Bank,
    width: u8,
    depth: u32,
    one: Id,
    two: Id,
    facts: &[Fact],
    test: Id,
    digit: bool,
) -> Result<bool, NoMemory>
    requires bank { IsBank bank.now }
    requires width { IsWidth width }
    requires one { HasWidth bank.now one width }
    requires two { HasWidth bank.now two width }
    requires facts { FactsFit bank.now facts.now }
    requires test { HasWidth bank.now test 1 }
    ensures { IfOk result (λ gone. gone ≡ cancels_within depth bank.now width one two (facts.now ++ fact test digit ∷ [])) }
{
    let more = with(bank, facts, test, digit)?;
    cancels_within(bank, width, depth, one, two, more.as_slice())
}

/// One word less another, multiplied out where the facts hold.
fn remainder(bank: &Bank, width: u8, facts: &[Fact], one: Id, two: Id) -> Result<Outcome, NoMemory>
    requires bank { IsBank bank.now }
    requires width { IsWidth width }
    requires one { HasWidth bank.now one width }
    requires two { HasWidth bank.now two width }
    requires facts { FactsFit bank.now facts.now }
    ensures { IfOk result (λ found. found ≡ remainder bank.now width facts.now one two) }
{
    let start = difference(bank, one, two)?;
    match expand(bank, facts, start)? {
        None => Ok(Outcome::Open),
        Some(sum) => Ok(outcome_of(bank, width, sum.as_slice())),
    }
}

/// One word less another. Its only error is out of memory.
fn difference(bank: &Bank, one: Id, two: Id) -> Result<Vec<Monomial>, NoMemory>
    ensures { IfOk result (λ list. list.items ≡ single 1 one ∷ single LESS_ONE two ∷ []) }
{
    let first = Summand {
        times: 1,
        term: one,
    };
    let second = Summand {
        times: LESS_ONE,
        term: two,
    };
    products_of(bank.allocator(), &[first, second])
}

/// What is known of products that were multiplied out.
fn outcome_of(bank: &Bank, width: u8, products: &[Monomial]) -> Outcome
    requires bank { IsBank bank.now }
    requires width { IsWidth width }
    requires products { ProductsAlike bank.now products.now }
    ensures { result ≡ outcome_of bank.now width (Some products.now) }
{
    if all_gone(width, products) {
        return Outcome::Nothing;
    }
    match products_test(bank, width, products) {
        None => Outcome::Open,
        Some(test) => Outcome::Split(test),
    }
}

/// Whether a product of two terms is among the parts, or below sums and picks. Its only error is out of memory.
fn has_product(bank: &Bank, parts: &[Summand]) -> Result<bool, NoMemory>
    requires bank { IsBank bank.now }
    requires parts { PartsAlike bank.now parts.now }
    ensures { IfOk result (λ found. found ≡ has_product READ_LIMIT bank.now parts.now) }
{
    let mut todo = copied(bank.allocator(), parts)?;
    for place in 0..READ_LIMIT {
        if place == todo.len() {
            return Ok(false);
        }
        let part = todo[place];
        if is_product(read(bank, &[], part.term), bank.node(part.term)) {
            return Ok(true);
        }
        enter(bank, &mut todo, part)?;
    }
    Ok(false)
}

/// Whether a term that is read as this, and made by this node, is a product of two terms.
pub fn is_product(reading: Decomposition, node: Node) -> bool
    ensures { result ≡ is_product reading (Some node) }
{
    match (reading, node) {
        (Decomposition::Whole, Node::Bin { op: Op::Mul, .. }) => true,
        _ => false,
    }
}

/// The terms of a part, and the words of a pick, put after the terms that are still to be looked at. Its only error is out of memory.
fn enter(bank: &Bank, todo: &mut Vec<Summand>, part: Summand) -> Result<(), NoMemory>
    requires bank { IsBank bank.now }
    requires part { Stands bank.now part.term }
    ensures { OnOk result (todo.new.items ≡ todo.old.items ++ inside bank.now part) }
{
    list(todo, part, read(bank, &[], part.term))?;
    look(todo, part, bank.node(part.term))
}
