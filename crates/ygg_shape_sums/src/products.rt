//! Sums of products of terms, each so many times.

ghost use Rattle.std.specs.Prelude.{◌≡◌, ◌==◌, ◌%◌, ◌^◌, ◌++◌, ◌∷◌, [], if◌then◌else◌, IfOk, OnOk, Some};
ghost use Rattle.ygg_shape_words.specs.ygg_rules.Views.{IsWidth};
ghost use Rattle.ygg_shape_words.specs.ygg_bank.Nodes.{IsBank};
ghost use Rattle.ygg_shape_sums.specs.Gathers.{test_in};
ghost use Rattle.ygg_shape_sums.specs.Products.{AllStand, Product, ProductsAlike, alike, all_gone, factor_test, many, more_times, placed, product_test};
ghost use Rattle.ygg_shape_sums.specs.Products.{products_test, single, with_factor, with_product};

use crate::parts::copied;
use std::alloc::Global;
use std::marker::Model;
use ygg_shape_words::{Bank, Id, NoMemory, Node};
use ygg_value::{Word, resize};

/// A product of terms, so many times. Some of its factors were read, and the rest are still to be.
pub struct Monomial {
    // how many times, modulo 2 ^ 64
    times: u64,
    // the factors that were read, in the order of their places
    factors: Vec<Id>,
    // the factors that are still to be read
    rest: Vec<Id>,
}

impl Drop for Monomial {
    fn drop(self) {
        let Monomial {
            times: _,
            factors,
            rest,
        } = self;
        drop(factors);
        drop(rest);
    }
}

impl Model for Monomial {
    ghost use Rattle.ygg_shape_sums.specs.Products.{Product};

    ghost Value = { Product };

    ghost view = { λ m. record { times = m.times; factors = m.factors.items; rest = m.rest.items } };
}

impl Monomial {
    /// A term so many times, which is still to be read. Its only error is out of memory.
    pub fn single(alloc: Global, times: u64, term: Id) -> Result<Monomial, NoMemory>
        ensures { IfOk result (λ (m : Product). m ≡ single times term) }
    {
        Monomial::of(alloc, times, Vec::new(alloc), &[term], &[])
    }

    /// These factors that were read, so many times, and more in two lists that are still to be read. Its only error is out of memory.
    fn of(
        alloc: Global,
        times: u64,
        factors: Vec<Id>,
        rest: &[Id],
        more: &[Id],
    ) -> Result<Monomial, NoMemory>
        ensures { IfOk result (λ (m : Product). m ≡ record { times = times; factors = factors.items; rest = rest.now ++ more.now }) }
    {
        let mut rest = copied(alloc, rest)?;
        rest.extend_from_slice(more)?;
        Ok(Monomial {
            times,
            factors,
            rest,
        })
    }

    /// How many times it is there.
    pub fn times(&self) -> u64
        ensures { result ≡ self.now.times }
    {
        self.times
    }

    /// The factors that were read.
    pub fn factors(&self) -> &[Id]
        ensures { result.now ≡ self.now.factors }
    {
        self.factors.as_slice()
    }

    /// The factors that are still to be read.
    pub fn rest(&self) -> &[Id]
        ensures { result.now ≡ self.now.rest }
    {
        self.rest.as_slice()
    }

    /// An equal product. Its only error is out of memory.
    pub fn copy(&self, alloc: Global) -> Result<Monomial, NoMemory>
        ensures { IfOk result (λ (m : Product). m ≡ self.now) }
    {
        let factors = copied(alloc, self.factors())?;
        Monomial::of(alloc, self.times, factors, self.rest(), &[])
    }

    /// The product so many times, with this rest and more factors that are still to be read. Its only error is out of memory.
    pub fn many(
        &self,
        alloc: Global,
        times: u64,
        rest: &[Id],
        more: &[Id],
    ) -> Result<Monomial, NoMemory>
        ensures { IfOk result (λ (m : Product). m ≡ many self.now times rest.now more.now) }
    {
        let factors = copied(alloc, self.factors())?;
        Monomial::of(alloc, self.times.wrapping_mul(times), factors, rest, more)
    }

    /// The product, a factor of which was read, with this rest. Its only error is out of memory.
    pub fn with_factor(&self, alloc: Global, factor: Id, rest: &[Id]) -> Result<Monomial, NoMemory>
        ensures { IfOk result (λ (m : Product). m ≡ with_factor self.now factor rest.now) }
    {
        let factors = placed(alloc, factor, self.factors())?;
        Monomial::of(alloc, self.times, factors, rest, &[])
    }

    /// The product is there so many times more.
    fn count(&mut self, times: u64)
        ensures { self.new ≡ more_times self.old times }
    {
        self.times = self.times.wrapping_add(times);
    }
}

/// A factor among others. Its only error is out of memory.
fn placed(alloc: Global, factor: Id, factors: &[Id]) -> Result<Vec<Id>, NoMemory>
    ensures { IfOk result (λ list. list.items ≡ placed factor factors.now) }
{
    let mut list = copied(alloc, factors)?;
    for place in 0..factors.len() {
        if factor.0 < factors[place].0 {
            if list.insert(place, factor).is_err() {
                return Err(NoMemory);
            }
            return Ok(list);
        }
    }
    if list.push(factor).is_err() {
        return Err(NoMemory);
    }
    Ok(list)
}

/// Whether two lists of factors are one.
fn alike(one: &[Id], two: &[Id]) -> bool
    ensures { result ≡ alike one.now two.now }
{
    match (one.split_first(), two.split_first()) {
        (None, None) => true,
        (Some((a, one)), Some((b, two))) => a.0 == b.0 && alike(one, two),
        _ => false,
    }
}

/// A product that was read, put among others. Its only error is out of memory.
pub fn add(sum: &mut Vec<Monomial>, product: Monomial) -> Result<(), NoMemory>
    ensures { OnOk result (sum.new.items ≡ with_product product sum.old.items) }
{
    if count_among(sum, &product) {
        return Ok(());
    }
    put(sum, product)
}

/// Counts a product that was read to the one among others that has its factors, where there is one.
fn count_among(sum: &mut Vec<Monomial>, product: &Monomial) -> bool
    ensures { sum.new.items ++ (if result then [] else product.now ∷ []) ≡ with_product product.now sum.old.items }
{
    for place in 0..sum.len() {
        if alike(sum[place].factors(), product.factors()) {
            sum[place].count(product.times());
            return true;
        }
    }
    false
}

/// A product, put after others. Its only error is out of memory.
pub fn put(list: &mut Vec<Monomial>, product: Monomial) -> Result<(), NoMemory>
    ensures { OnOk result (list.new.items ≡ list.old.items ++ product ∷ []) }
{
    if list.push(product).is_err() {
        return Err(NoMemory);
    }
    Ok(())
}

/// Whether all products are there 0 times, at a width.
pub fn all_gone(width: u8, products: &[Monomial]) -> bool
    requires { IsWidth width }
    ensures { result ≡ all_gone width products.now }
{
    for product in products {
        if !is_gone(width, product.times()) {
            return false;
        }
    }
    true
}

/// Whether what is there so many times is there 0 times, at a width.
pub fn is_gone(width: u8, times: u64) -> bool
    requires { IsWidth width }
    ensures { result ≡ (times % 2 ^ width == 0) }
{
    let word = resize(
        Word {
            width: 64,
            bits: times,
        },
        width,
    );
    word.bits == 0
}

/// The test of the first pick among the factors of products that are there at all.
pub fn products_test(bank: &Bank, width: u8, products: &[Monomial]) -> Option<Id>
    requires bank { IsBank bank.now }
    requires width { IsWidth width }
    requires products { ProductsAlike bank.now products.now }
    ensures { result ≡ products_test bank.now width products.now }
{
    for product in products {
        if let Some(test) = product_test(bank, width, product) {
            return Some(test);
        }
    }
    None
}

/// The test of the first pick among the factors of a product, where it is there at all.
pub fn product_test(bank: &Bank, width: u8, product: &Monomial) -> Option<Id>
    requires bank { IsBank bank.now }
    requires width { IsWidth width }
    requires product { AllStand bank.now product.now.factors }
    ensures { result ≡ product_test bank.now width product.now }
{
    if is_gone(width, product.times()) {
        return None;
    }
    factor_test(bank, product.factors())
}

/// The test of the first pick among factors.
fn factor_test(bank: &Bank, factors: &[Id]) -> Option<Id>
    requires bank { IsBank bank.now }
    requires factors { AllStand bank.now factors.now }
    ensures { result ≡ factor_test bank.now factors.now }
{
    for factor in factors {
        if let Some(test) = test_of(bank.node(*factor)) {
            return Some(test);
        }
    }
    None
}

/// The test of a pick.
fn test_of(node: Node) -> Option<Id>
    ensures { result ≡ test_in (Some node) }
{
    match node {
        Node::Pick { test, .. } => Some(test),
        _ => None,
    }
}
