//! What a conjunct that is a pick says of inputs.

ghost use Rattle.std.specs.Prelude.{◌≡◌, ◌++◌, All, IfOk, OnOk, length, slice_get, Some};
ghost use Rattle.std.specs.List.{flat_map};
ghost use Rattle.ygg_shape_cells.specs.Pairs.{PairsFit};
ghost use Rattle.ygg_shape_cells.specs.ygg_bank.Nodes.{Extends, HasWidth, IsBank, Stands};
ghost use Rattle.ygg_shape_cells.specs.ygg_shape_words.Forms.{WordsAlike};
ghost use Rattle.ygg_shape.specs.Comparing.{IsDigit};
ghost use Rattle.ygg_shape.specs.Joins.{JoinFits, all_noted, join_at, join_of, joins, joins_at, joins_made, noted, pair_joins, partners_of};

use crate::conjuncts::put;
use crate::equations::equations_of;
use crate::replacing::{Replacement, Replacements};
use std::alloc::Global;
use ygg_list::Sequence;
use ygg_shape_cells::pairs::Pair;
use ygg_shape_cells::{Bank, Book, Id, NoMemory, Node, pick};

/// What an input equals where a test is 1, and where it is 0.
#[derive(Clone, Copy, Drop)]
pub struct Join {
    /// The test.
    pub test: Id,
    /// The input.
    pub input: Id,
    /// What it equals where the test is 1.
    pub yes: Id,
    /// What it equals where the test is 0.
    pub no: Id,
}

/// What inputs equal, in order.
pub type Joins = Sequence<Join>;

/// Notes each of two equal terms at the place of the other.
fn note(partners: &mut [Option<Id>], pair: Pair)
    ensures partners { partners.new ≡ noted partners.old pair }
    ensures count { length partners.new ≡ length partners.old }
{
    if pair.one.0 < partners.len() {
        partners[pair.one.0] = Some(pair.two);
    }
    if pair.two.0 < partners.len() {
        partners[pair.two.0] = Some(pair.one);
    }
}

/// Notes each of all equal terms at the place of the other.
fn note_all(partners: &mut [Option<Id>], pairs: &[Pair])
    ensures { partners.new ≡ all_noted partners.old pairs.now }
{
    for pair in pairs {
        note(partners, *pair);
    }
}

/// At each place up to a term's own, a term that is equal to the one there where that term is 1. Its only error is out of memory.
fn partners_of(
    alloc: Global,
    bank: &Bank,
    one: Id,
    zero: Id,
    term: Id,
) -> Result<Vec<Option<Id>>, NoMemory>
    requires bank { IsBank bank.now }
    requires stands { Stands bank.now term }
    ensures { IfOk result (λ list. list.items ≡ partners_of bank.now one zero term) }
{
    let _count = bank.len();
    let pairs = equations_of(alloc, bank, one, zero, term)?;
    let mut partners = vec![in alloc; None; term.0 + 1]?;
    note_all(&mut partners, pairs.as_slice());
    Ok(partners)
}

/// Of an input, the term that it equals where the test is 1, and the one that it equals where the test is 0.
fn join_of(test: Id, word: Id, yes: Id, node: Node, no: Option<Option<Id>>) -> Option<Join>
    ensures { result ≡ join_of test word yes (Some node) no }
{
    match (node, no) {
        (Node::Input { .. }, Some(Some(no))) => Some(Join {
            test,
            input: word,
            yes,
            no,
        }),
        _ => None,
    }
}

/// The same of a term, by the terms that others equal where the test is 0.
fn join_at(bank: &Bank, test: Id, partners: &[Option<Id>], word: Id, yes: Id) -> Option<Join>
    requires { Stands bank.now word }
    ensures { result ≡ join_at bank.now test partners.now word yes }
{
    let node = bank.node(word);
    join_of(test, word, yes, node, partners.get(word.0).copied())
}

/// Puts the same of each of two terms, which are equal where the test is 1, after others.
fn put_pair(
    bank: &Bank,
    test: Id,
    partners: &[Option<Id>],
    pair: Pair,
    joins: &mut Joins,
) -> Result<(), NoMemory>
    requires { WordsAlike bank.now pair.one pair.two }
    ensures { OnOk result (joins.new ≡ joins.old ++ pair_joins bank.now test partners.now pair) }
{
    put(joins, join_at(bank, test, partners, pair.one, pair.two))?;
    put(joins, join_at(bank, test, partners, pair.two, pair.one))
}

/// Puts the same of all terms, which are equal in pairs where the test is 1, after others.
fn put_pairs(
    bank: &Bank,
    test: Id,
    partners: &[Option<Id>],
    pairs: &[Pair],
    joins: &mut Joins,
) -> Result<(), NoMemory>
    requires { PairsFit bank.now pairs.now }
    ensures { OnOk result (joins.new ≡ joins.old ++ flat_map (pair_joins bank.now test partners.now) pairs.now) }
{
    for pair in pairs {
        put_pair(bank, test, partners, *pair, joins)?;
    }
    Ok(())
}

/// Puts the inputs of which both words of a pick say what they are, each where it is 1, after others.
fn put_joins(
    alloc: Global,
    bank: &Bank,
    one: Id,
    zero: Id,
    conjunct: Id,
    joins: &mut Joins,
) -> Result<(), NoMemory>
    requires bank { IsBank bank.now }
    requires one { HasWidth bank.now one 1 }
    requires zero { HasWidth bank.now zero 1 }
    requires conjunct { HasWidth bank.now conjunct 1 }
    ensures { OnOk result (joins.new ≡ joins.old ++ joins_at bank.now one zero conjunct) }
{
    match bank.node(conjunct) {
        Node::Pick { test, yes, no } => {
            let partners = partners_of(alloc, bank, one, zero, no)?;
            let pairs = equations_of(alloc, bank, one, zero, yes)?;
            put_pairs(bank, test, &partners, pairs.as_slice(), joins)
        }
        _ => Ok(()),
    }
}

/// The inputs of which both words of a conjunct that is a pick say what they are, each where it is 1. Its only error is out of memory.
pub fn joins(
    alloc: Global,
    bank: &Bank,
    one: Id,
    zero: Id,
    conjuncts: &[Id],
) -> Result<Joins, NoMemory>
    requires bank { IsBank bank.now }
    requires one { HasWidth bank.now one 1 }
    requires zero { HasWidth bank.now zero 1 }
    requires conjuncts { All (IsDigit bank.now) conjuncts.now }
    ensures { IfOk result (λ list. list ≡ joins bank.now one zero conjuncts.now) }
{
    let mut found = Joins::new(alloc);
    for conjunct in conjuncts {
        put_joins(alloc, bank, one, zero, *conjunct, &mut found)?;
    }
    Ok(found)
}

/// Puts picks that stand for inputs after other replacements. Its only error is out of memory.
pub fn make_joins<B: Book>(
    bank: &mut Bank,
    book: &B,
    joins: &[Join],
    facts: &mut Replacements,
) -> Result<(), NoMemory>
    requires bank { IsBank bank.old }
    requires joins { All (JoinFits bank.old) joins.now }
    ensures nodes { OnOk result (bank.new ≡ (joins_made (B.kinds book.now) joins.now bank.old).nodes) }
    ensures form { OnOk result (facts.new ≡ facts.old ++ (joins_made (B.kinds book.now) joins.now bank.old).value) }
    ensures grows { Extends bank.old bank.new }
    ensures bank { IsBank bank.new }
{
    for join in joins {
        let term = pick(bank, book, join.test, join.yes, join.no)?;
        facts.push(Replacement {
            input: join.input,
            term,
        })?;
    }
    Ok(())
}
