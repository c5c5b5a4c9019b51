//! A sum in which products were multiplied out, where none of them is left.

ghost use Rattle.std.specs.Prelude.{◌≡◌, [], if◌then◌else◌, IfOk, None, Some};
ghost use Rattle.ygg_shape_words.specs.ygg_rules.Views.{IsWidth};
ghost use Rattle.ygg_shape_words.specs.ygg_bank.Nodes.{IsBank, Stands};
ghost use Rattle.ygg_shape_sums.specs.Cancels.{is_product_at};
ghost use Rattle.ygg_shape_sums.specs.Gathers.{gathered_sum};
ghost use Rattle.ygg_shape_sums.specs.Parts.{PartsAlike, PartsFit, Sum, empty};
ghost use Rattle.ygg_shape_sums.specs.Readings.{FactsFit};
ghost use Rattle.ygg_shape_sums.specs.Reduces.{any_product, loses_products, multiplied, products_of, reduced_sum, summed, with_few, with_one};

use crate::cancelling::is_product;
use crate::gathering::gather;
use crate::multiplying::expand;
use crate::parts::{Summand, Total};
use crate::products::{Monomial, is_gone, put};
use crate::reading::{Fact, read};
use std::alloc::Global;
use ygg_shape_words::{Bank, Id, NoMemory};

/// The sum, read where the facts hold, and multiplied out where no product is left then. Its only error is out of memory.
pub fn reduce(bank: &Bank, width: u8, facts: &[Fact], total: &Total) -> Result<Total, NoMemory>
    requires bank { IsBank bank.now }
    requires width { IsWidth width }
    requires facts { FactsFit bank.now facts.now }
    requires parts { PartsFit bank.now width total.now.parts }
    ensures { IfOk result (λ (sum : Sum). sum ≡ reduced_sum bank.now width facts.now total.now) }
{
    let sum = gather(bank, facts, total)?;
    let less = multiplied(bank, width, facts, &sum)?;
    Ok(less.unwrap_or(sum))
}

/// Whether a sum, read, has products of two terms, and none is left where it is multiplied out. Its only error is out of memory.
pub fn loses_products(bank: &Bank, width: u8, total: &Total) -> Result<bool, NoMemory>
    requires bank { IsBank bank.now }
    requires width { IsWidth width }
    requires parts { PartsFit bank.now width total.now.parts }
    ensures { IfOk result (λ loses. loses ≡ loses_products bank.now width (gathered_sum bank.now [] total.now)) }
{
    let sum = gather(bank, &[], total)?;
    let less = multiplied(bank, width, &[], &sum)?;
    Ok(less.is_some())
}

/// Whether a product of two terms is among the parts.
pub fn any_product(bank: &Bank, parts: &[Summand]) -> bool
    requires bank { IsBank bank.now }
    requires parts { PartsAlike bank.now parts.now }
    ensures { result ≡ any_product bank.now parts.now }
{
    for part in parts {
        if is_product_at(bank, *part) {
            return true;
        }
    }
    false
}

/// Whether a part is a product of two terms.
pub fn is_product_at(bank: &Bank, part: Summand) -> bool
    requires bank { IsBank bank.now }
    requires part { Stands bank.now part.term }
    ensures { result ≡ is_product_at bank.now part }
{
    is_product(read(bank, &[], part.term), bank.node(part.term))
}

/// The sum, multiplied out where the facts hold, where it has products of two terms and none is left then. Its only error is out of memory.
fn multiplied(
    bank: &Bank,
    width: u8,
    facts: &[Fact],
    sum: &Total,
) -> Result<Option<Total>, NoMemory>
    requires bank { IsBank bank.now }
    requires width { IsWidth width }
    requires facts { FactsFit bank.now facts.now }
    requires parts { PartsFit bank.now width sum.now.parts }
    ensures { IfOk result (λ found. found ≡ (if any_product bank.now sum.now.parts then multiplied bank.now width facts.now sum.now else None)) }
{
    if !any_product(bank, sum.parts()) {
        return Ok(None);
    }
    let alloc = bank.allocator();
    let start = products_of(alloc, sum.parts())?;
    match expand(bank, facts, start)? {
        None => Ok(None),
        Some(products) => summed(alloc, width, products.as_slice(), sum.number()),
    }
}

/// The parts as products that are still to be read. Its only error is out of memory.
pub fn products_of(alloc: Global, parts: &[Summand]) -> Result<Vec<Monomial>, NoMemory>
    ensures { IfOk result (λ list. list.items ≡ products_of parts.now) }
{
    let mut list = Vec::new(alloc);
    for part in parts {
        put(&mut list, Monomial::single(alloc, part.times, part.term)?)?;
    }
    Ok(list)
}

/// Products, added to a number, where each is a term or a number, or there 0 times. Its only error is out of memory.
fn summed(
    alloc: Global,
    width: u8,
    products: &[Monomial],
    number: u64,
) -> Result<Option<Total>, NoMemory>
    requires { IsWidth width }
    ensures { IfOk result (λ found. found ≡ summed width products.now (empty number)) }
{
    let mut sum = Total::new(alloc, number);
    for product in products {
        if !count_one(width, product, &mut sum)? {
            return Ok(None);
        }
    }
    Ok(Some(sum))
}

/// Adds a product to a sum, where it is a term or a number, or there 0 times, and says whether it is. Its only error is out of memory.
fn count_one(width: u8, product: &Monomial, sum: &mut Total) -> Result<bool, NoMemory>
    requires { IsWidth width }
    ensures { IfOk result (λ counted. (if counted then Some sum.new else None) ≡ with_one width product.now sum.old) }
{
    if is_gone(width, product.times()) {
        return Ok(true);
    }
    count_few(product.times(), product.factors(), sum)
}

/// Adds a product of these factors to a sum, where it is a term or a number, and says whether it is. Its only error is out of memory.
fn count_few(times: u64, factors: &[Id], sum: &mut Total) -> Result<bool, NoMemory>
    ensures { IfOk result (λ counted. (if counted then Some sum.new else None) ≡ with_few times factors.now sum.old) }
{
    match factors.split_first() {
        None => {
            sum.count(times);
            Ok(true)
        }
        Some((factor, rest)) => {
            if !rest.is_empty() {
                return Ok(false);
            }
            sum.add(Summand {
                times,
                term: *factor,
            })?;
            Ok(true)
        }
    }
}
