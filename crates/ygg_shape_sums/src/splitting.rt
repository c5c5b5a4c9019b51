//! The test on which the equality of a sum with 0 is split.

ghost use Rattle.std.specs.Prelude.{◌≡◌, IfOk};
ghost use Rattle.ygg_shape_words.specs.ygg_rules.Views.{IsWidth};
ghost use Rattle.ygg_shape_words.specs.ygg_bank.Nodes.{IsBank, Stands};
ghost use Rattle.ygg_shape_sums.specs.Parts.{PartsAlike, PartsFit};
ghost use Rattle.ygg_shape_sums.specs.Products.{AllStand, ProductsAlike};
ghost use Rattle.ygg_shape_sums.specs.Readings.{FactsFit};
ghost use Rattle.ygg_shape_sums.specs.Splits.{all_several_test, factors_test, firm_at, firm_test, is_optional, is_zero, parts_test, several_test, split_of};

use crate::gathering::{first_test, is_rich};
use crate::multiplying::expand;
use crate::parts::Summand;
use crate::products::{Monomial, product_test};
use crate::reading::Fact;
use crate::reducing::{any_product, is_product_at, products_of};
use ygg_shape_words::{Bank, Id, NoMemory, Node, known};
use ygg_value::Word;

/// The test that the equality of a sum with 0 is split on where the facts hold, where it is: one in a product first. Its only error is out
/// of memory.
pub fn split_of(
    bank: &Bank,
    width: u8,
    left: u32,
    facts: &[Fact],
    parts: &[Summand],
) -> Result<Option<Id>, NoMemory>
    requires bank { IsBank bank.now }
    requires width { IsWidth width }
    requires facts { FactsFit bank.now facts.now }
    requires parts { PartsFit bank.now width parts.now }
    ensures { IfOk result (λ test. test ≡ split_of bank.now width left facts.now parts.now) }
{
    if left == 0 {
        return Ok(None);
    }
    if !is_rich(bank, parts)? {
        return Ok(None);
    }
    match factors_test(bank, width, facts, parts)? {
        Some(test) => Ok(Some(test)),
        None => Ok(parts_test(bank, parts)),
    }
}

/// The test of the first pick among the parts; beside products of two terms, terms that are there or not stay.
fn parts_test(bank: &Bank, parts: &[Summand]) -> Option<Id>
    requires bank { IsBank bank.now }
    requires parts { PartsAlike bank.now parts.now }
    ensures { result ≡ parts_test bank.now parts.now }
{
    if any_product(bank, parts) {
        firm_test(bank, parts)
    } else {
        first_test(bank, parts)
    }
}

/// The test of the first pick among the parts that isn't a term that is there or not.
fn firm_test(bank: &Bank, parts: &[Summand]) -> Option<Id>
    requires bank { IsBank bank.now }
    requires parts { PartsAlike bank.now parts.now }
    ensures { result ≡ firm_test bank.now parts.now }
{
    for part in parts {
        if let Some(test) = firm_at(bank, *part) {
            return Some(test);
        }
    }
    None
}

/// The test of a part that is a pick, but no term that is there or not, where it is there at all.
fn firm_at(bank: &Bank, part: Summand) -> Option<Id>
    requires bank { IsBank bank.now }
    requires part { Stands bank.now part.term }
    ensures { result ≡ firm_at bank.now part }
{
    if part.times == 0 {
        return None;
    }
    match bank.node(part.term) {
        Node::Pick { test, yes, no } => {
            if is_optional(bank, yes, no) {
                None
            } else {
                Some(test)
            }
        }
        _ => None,
    }
}

/// Whether a pick of two words is a term that is there or not: one of them is 0, and the other no product of two terms.
fn is_optional(bank: &Bank, one: Id, two: Id) -> bool
    requires bank { IsBank bank.now }
    requires one { Stands bank.now one }
    requires two { Stands bank.now two }
    ensures { result ≡ is_optional bank.now one two }
{
    if is_zero(known(bank, one)) {
        !is_product_at(
            bank,
            Summand {
                times: 1,
                term: two,
            },
        )
    } else if is_zero(known(bank, two)) {
        !is_product_at(
            bank,
            Summand {
                times: 1,
                term: one,
            },
        )
    } else {
        false
    }
}

/// Whether a constant is 0.
fn is_zero(constant: Option<Word>) -> bool
    ensures { result ≡ is_zero constant }
{
    match constant {
        None => false,
        Some(word) => word.bits == 0,
    }
}

/// The test of the first pick among the factors of the products that a sum is where the facts hold. Its only error is out of memory.
fn factors_test(
    bank: &Bank,
    width: u8,
    facts: &[Fact],
    parts: &[Summand],
) -> Result<Option<Id>, NoMemory>
    requires bank { IsBank bank.now }
    requires width { IsWidth width }
    requires facts { FactsFit bank.now facts.now }
    requires parts { PartsFit bank.now width parts.now }
    ensures { IfOk result (λ test. test ≡ factors_test bank.now width facts.now parts.now) }
{
    if !any_product(bank, parts) {
        return Ok(None);
    }
    let start = products_of(bank.allocator(), parts)?;
    match expand(bank, facts, start)? {
        None => Ok(None),
        Some(products) => Ok(all_several_test(bank, width, products.as_slice())),
    }
}

/// The test of the first pick among the factors of products of two terms or more.
fn all_several_test(bank: &Bank, width: u8, products: &[Monomial]) -> Option<Id>
    requires bank { IsBank bank.now }
    requires width { IsWidth width }
    requires products { ProductsAlike bank.now products.now }
    ensures { result ≡ all_several_test bank.now width products.now }
{
    for product in products {
        if let Some(test) = several_test(bank, width, product) {
            return Some(test);
        }
    }
    None
}

/// The test of the first pick among the factors of a product of two terms or more, where it is there at all.
fn several_test(bank: &Bank, width: u8, product: &Monomial) -> Option<Id>
    requires bank { IsBank bank.now }
    requires width { IsWidth width }
    requires product { AllStand bank.now product.now.factors }
    ensures { result ≡ several_test bank.now width product.now }
{
    if product.factors().len() > 1 {
        product_test(bank, width, product)
    } else {
        None
    }
}
