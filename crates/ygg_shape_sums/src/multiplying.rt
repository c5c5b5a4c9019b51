//! A sum of products, multiplied out.

ghost use Rattle.std.specs.Prelude.{◌≡◌, ◌<◌, ◌++◌, ◌∷◌, [], IfOk, OnOk, Some, get_or, length};
ghost use Rattle.ygg_shape_words.specs.ygg_bank.Nodes.{IsBank};
ghost use Rattle.ygg_shape_sums.specs.Multiplies.{AreFound, expanded, opened, spread, taken};
ghost use Rattle.ygg_shape_sums.specs.Products.{AllStand, Product, ProductsAlike, many};
ghost use Rattle.ygg_shape_sums.specs.Readings.{FactsFit};
ghost use Rattle.ygg_shape_sums.specs.declared.reading.Decomposition.TheVariants as reading;

use crate::products::{Monomial, add, put};
use crate::reading::{Decomposition, Fact, read};
use std::alloc::Global;
use ygg_shape_words::{Bank, Id, NoMemory, Node};
use ygg_value::Op;

/// How many products are looked at where a sum is multiplied out.
pub const MULTIPLY_LIMIT: usize = 1000;

/// The products, multiplied out where the facts hold: each product that is left once; nothing where that takes more than
/// `MULTIPLY_LIMIT` steps. Its only error is out of memory.
pub fn expand(
    bank: &Bank,
    facts: &[Fact],
    start: Vec<Monomial>,
) -> Result<Option<Vec<Monomial>>, NoMemory>
    requires bank { IsBank bank.now }
    requires facts { FactsFit bank.now facts.now }
    requires products { ProductsAlike bank.now start.items }
    ensures { IfOk result (λ found. AreFound (expanded MULTIPLY_LIMIT bank.now facts.now start.items []) found) }
{
    let mut todo = start;
    let mut sum = Vec::new(bank.allocator());
    for place in 0..MULTIPLY_LIMIT {
        if place == todo.len() {
            return Ok(Some(sum));
        }
        multiply(bank, facts, place, &mut todo, &mut sum)?;
    }
    Ok(None)
}

/// The product at a place: the products that it is, whose next factor is read, put after the others, or itself among those all of whose
/// factors were read. Its only error is out of memory.
fn multiply(
    bank: &Bank,
    facts: &[Fact],
    place: usize,
    todo: &mut Vec<Monomial>,
    sum: &mut Vec<Monomial>,
) -> Result<(), NoMemory>
    requires bank { IsBank bank.now }
    requires facts { FactsFit bank.now facts.now }
    requires place { place < length todo.old.items }
    requires products { ProductsAlike bank.now todo.old.items }
    ensures todo { OnOk result ((m : Product) → m ≡ get_or todo.old.items place m → todo.new.items ≡ todo.old.items ++ opened bank.now facts.now m m.rest) }
    ensures sum { OnOk result ((m : Product) → m ≡ get_or todo.old.items place m → sum.new.items ≡ taken m m.rest sum.old.items) }
{
    let product = todo[place].copy(bank.allocator())?;
    open(bank, facts, &product, todo)?;
    take(sum, product)
}

/// A product all of whose factors were read, put among others. Its only error is out of memory.
fn take(sum: &mut Vec<Monomial>, product: Monomial) -> Result<(), NoMemory>
    ensures { OnOk result (sum.new.items ≡ taken product product.rest sum.old.items) }
{
    if product.rest().is_empty() {
        add(sum, product)?;
    }
    Ok(())
}

/// The products that a product is, whose next factor is read, put after others. Its only error is out of memory.
fn open(
    bank: &Bank,
    facts: &[Fact],
    product: &Monomial,
    todo: &mut Vec<Monomial>,
) -> Result<(), NoMemory>
    requires bank { IsBank bank.now }
    requires facts { FactsFit bank.now facts.now }
    requires factors { AllStand bank.now product.now.rest }
    ensures { OnOk result (todo.new.items ≡ todo.old.items ++ opened bank.now facts.now product.now product.now.rest) }
{
    match product.rest().split_first() {
        None => Ok(()),
        Some((factor, rest)) => {
            if product.times() == 0 {
                return Ok(());
            }
            let reading = read(bank, facts, *factor);
            let node = bank.node(*factor);
            spread(
                bank.allocator(),
                product,
                *factor,
                rest,
                reading,
                node,
                todo,
            )
        }
    }
}

/// The products that a product is, whose next factor is read as this and made by this node, put after others. Its only error is out of
/// memory.
fn spread(
    alloc: Global,
    product: &Monomial,
    factor: Id,
    rest: &[Id],
    reading: Decomposition,
    node: Node,
    todo: &mut Vec<Monomial>,
) -> Result<(), NoMemory>
    ensures { OnOk result (todo.new.items ≡ todo.old.items ++ spread product.now factor rest.now reading (Some node)) }
{
    match reading {
        Decomposition::Number(number) => put_many(alloc, product, number, rest, &[], todo),
        Decomposition::Times {
            times,
            term,
            number,
        } => {
            put_many(alloc, product, times, rest, &[term], todo)?;
            put_many(alloc, product, number, rest, &[], todo)
        }
        Decomposition::Both { one, times, two } => {
            put_many(alloc, product, 1, rest, &[one], todo)?;
            put_many(alloc, product, times, rest, &[two], todo)
        }
        Decomposition::Whole => put(todo, factors_of(alloc, product, factor, rest, node)?),
    }
}

/// The product so many times, with this rest and more factors that are still to be read, put after others. Its only error is out of memory.
fn put_many(
    alloc: Global,
    product: &Monomial,
    times: u64,
    rest: &[Id],
    more: &[Id],
    todo: &mut Vec<Monomial>,
) -> Result<(), NoMemory>
    ensures { OnOk result (todo.new.items ≡ todo.old.items ++ many product.now times rest.now more.now ∷ []) }
{
    put(todo, product.many(alloc, times, rest, more)?)
}

/// The product, one of whose factors is no sum, and is made by this node. Its only error is out of memory.
fn factors_of(
    alloc: Global,
    product: &Monomial,
    factor: Id,
    rest: &[Id],
    node: Node,
) -> Result<Monomial, NoMemory>
    ensures { IfOk result (λ (m : Product). m ∷ [] ≡ spread product.now factor rest.now reading.Whole (Some node)) }
{
    match node {
        Node::Bin { op: Op::Mul, a, b } => product.many(alloc, 1, rest, &[a, b]),
        _ => product.with_factor(alloc, factor, rest),
    }
}
