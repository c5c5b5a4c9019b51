//! A sum in which products were multiplied out, where those that are left are terms.

ghost use Rattle.std.specs.Prelude.{◌≡◌, [], None, if◌then◌else◌, IfOk, OnOk, All};
ghost use Rattle.ygg_shape_words.specs.ygg_rules.Views.{IsWidth};
ghost use Rattle.ygg_shape_words.specs.ygg_bank.Nodes.{Extends, HasWidth, IsBank};
ghost use Rattle.ygg_shape_words.specs.ygg_bank.declared.node.Id.{Id};
ghost use Rattle.ygg_shape_sums.specs.Multiplies.{AreFound, expanded};
ghost use Rattle.ygg_shape_sums.specs.Parts.{PartsFit, Sum, empty};
ghost use Rattle.ygg_shape_sums.specs.Products.{ProductFits};
ghost use Rattle.ygg_shape_sums.specs.Readings.{FactsFit};
ghost use Rattle.ygg_shape_sums.specs.Reduces.{any_product, products_of};
ghost use Rattle.ygg_shape_sums.specs.Remains.{remains_of, times_all, vanishes_left, with_factors, with_term, with_terms};
ghost use Rattle.ygg_shape_sums.specs.declared.multiplying.TheConstants.{MULTIPLY_LIMIT};

use crate::multiplying::expand;
use crate::parts::{Summand, Total};
use crate::products::{Monomial, is_gone};
use crate::reading::Fact;
use crate::reducing::{any_product, products_of};
use crate::siding::{product, vanishes};
use ygg_shape_words::{Bank, Book, Id, NoMemory};

/// Whether a sum is 0 where the facts hold: multiplied out where it has products of two terms, and each product that is left is a term.
pub fn vanishes_left<B: Book>(
    bank: &mut Bank,
    book: &B,
    width: u8,
    facts: &[Fact],
    total: &Total,
) -> Result<Id, NoMemory>
    requires bank { IsBank bank.old }
    requires width { IsWidth width }
    requires facts { FactsFit bank.old facts.now }
    requires parts { PartsFit bank.old width total.now.parts }
    ensures nodes { OnOk result (bank.new ≡ (vanishes_left (B.kinds book.now) width facts.now total.now bank.old).nodes) }
    ensures form { IfOk result (λ id. id ≡ (vanishes_left (B.kinds book.now) width facts.now total.now bank.old).value) }
    ensures width { IfOk result (λ id. HasWidth bank.new id 1) }
    ensures grows { Extends bank.old bank.new }
    ensures bank { IsBank bank.new }
{
    match products_in(bank, facts, total.parts(), width)? {
        None => vanishes(bank, book, width, total),
        Some(products) => {
            let sum = with_terms(bank, book, width, products.as_slice(), total.number())?;
            vanishes(bank, book, width, &sum)
        }
    }
}

/// The products that a sum is where the facts hold, if it has products of two terms.
fn products_in(
    bank: &Bank,
    facts: &[Fact],
    parts: &[Summand],
    width: u8,
) -> Result<Option<Vec<Monomial>>, NoMemory>
    requires bank { IsBank bank.now }
    requires facts { FactsFit bank.now facts.now }
    requires parts { PartsFit bank.now width parts.now }
    ensures { IfOk result (λ found.
        AreFound (if any_product bank.now parts.now then expanded MULTIPLY_LIMIT bank.now facts.now (products_of parts.now) [] else None) found) }
{
    if !any_product(bank, parts) {
        return Ok(None);
    }
    let start = products_of(bank.allocator(), parts)?;
    expand(bank, facts, start)
}

/// Products, added to a number as terms.
fn with_terms<B: Book>(
    bank: &mut Bank,
    book: &B,
    width: u8,
    products: &[Monomial],
    number: u64,
) -> Result<Total, NoMemory>
    requires bank { IsBank bank.old }
    requires width { IsWidth width }
    requires products { All (ProductFits bank.old width) products.now }
    ensures nodes { OnOk result (bank.new ≡ (with_terms (B.kinds book.now) width products.now (empty number) bank.old).nodes) }
    ensures form { IfOk result (λ (sum : Sum). sum ≡ (with_terms (B.kinds book.now) width products.now (empty number) bank.old).value) }
    ensures parts { IfOk result (λ (sum : Sum). PartsFit bank.new width sum.parts) }
    ensures grows { Extends bank.old bank.new }
    ensures bank { IsBank bank.new }
{
    let mut sum = Total::new(bank.allocator(), number);
    for product in products {
        with_term(bank, book, width, product, &mut sum)?;
    }
    Ok(sum)
}

/// A product, added to a sum as a term, where it is there at all.
fn with_term<B: Book>(
    bank: &mut Bank,
    book: &B,
    width: u8,
    product: &Monomial,
    sum: &mut Total,
) -> Result<(), NoMemory>
    requires bank { IsBank bank.old }
    requires width { IsWidth width }
    requires product { ProductFits bank.old width product.now }
    requires parts { PartsFit bank.old width sum.old.parts }
    ensures nodes { OnOk result (bank.new ≡ (with_term (B.kinds book.now) width product.now sum.old bank.old).nodes) }
    ensures form { OnOk result (sum.new ≡ (with_term (B.kinds book.now) width product.now sum.old bank.old).value) }
    ensures parts { OnOk result (PartsFit bank.new width sum.new.parts) }
    ensures grows { Extends bank.old bank.new }
    ensures bank { IsBank bank.new }
{
    if is_gone(width, product.times()) {
        return Ok(());
    }
    with_factors(bank, book, width, product.times(), product.factors(), sum)
}

/// A product of these factors, so many times, added to a sum as a term.
fn with_factors<B: Book>(
    bank: &mut Bank,
    book: &B,
    width: u8,
    times: u64,
    factors: &[Id],
    sum: &mut Total,
) -> Result<(), NoMemory>
    requires bank { IsBank bank.old }
    requires factors { All (λ (a : Id). HasWidth bank.old a width) factors.now }
    requires parts { PartsFit bank.old width sum.old.parts }
    ensures nodes { OnOk result (bank.new ≡ (with_factors (B.kinds book.now) times factors.now sum.old bank.old).nodes) }
    ensures form { OnOk result (sum.new ≡ (with_factors (B.kinds book.now) times factors.now sum.old bank.old).value) }
    ensures parts { OnOk result (PartsFit bank.new width sum.new.parts) }
    ensures grows { Extends bank.old bank.new }
    ensures bank { IsBank bank.new }
{
    match factors.split_first() {
        None => {
            sum.count(times);
            Ok(())
        }
        Some((factor, rest)) => {
            let term = times_all(bank, book, width, *factor, rest)?;
            sum.add(Summand { times, term })
        }
    }
}

/// A word times these, one after another.
fn times_all<B: Book>(
    bank: &mut Bank,
    book: &B,
    width: u8,
    first: Id,
    factors: &[Id],
) -> Result<Id, NoMemory>
    requires bank { IsBank bank.old }
    requires first { HasWidth bank.old first width }
    requires factors { All (λ (a : Id). HasWidth bank.old a width) factors.now }
    ensures nodes { OnOk result (bank.new ≡ (times_all (B.kinds book.now) first factors.now bank.old).nodes) }
    ensures form { IfOk result (λ id. id ≡ (times_all (B.kinds book.now) first factors.now bank.old).value) }
    ensures width { IfOk result (λ id. HasWidth bank.new id width) }
    ensures grows { Extends bank.old bank.new }
    ensures bank { IsBank bank.new }
{
    let mut all = first;
    for factor in factors {
        all = product(bank, book, width, all, *factor)?;
    }
    Ok(all)
}
