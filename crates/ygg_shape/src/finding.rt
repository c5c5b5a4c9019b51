//! What a hypothesis says of inputs.

ghost use Rattle.std.specs.Prelude.{◌≡◌, IfOk, OnOk, Some, slice_get};
ghost use Rattle.ygg_shape_cells.specs.Pairs.{PairsFit};
ghost use Rattle.ygg_shape_cells.specs.ygg_bank.Nodes.{Extends, HasWidth, IsBank};
ghost use Rattle.ygg_shape_cells.specs.ygg_bank.Values.{KeepsValues};
ghost use Rattle.ygg_shape_cells.specs.ygg_shape_words.Forms.{WordsAlike};
ghost use Rattle.ygg_shape.specs.Finding.{equal_fact, fact_of, facts_in, found};
ghost use Rattle.ygg_shape.specs.Replacing.{AreFit, AreTrueUnder};

use crate::conjuncts::{conjuncts_of, put};
use crate::equations::equations;
use crate::joins::{joins, make_joins};
use crate::replacing::{Replacement, Replacements};
use std::alloc::Global;
use ygg_shape_cells::pairs::Pair;
use ygg_shape_cells::{Bank, Book, Id, NoMemory, Node};
use ygg_value::Word;

/// A replacement of one of two equal terms, where one is an input; of two inputs, that of the later one.
fn equal_fact(one: Id, two: Id, first: Node, second: Node) -> Option<Replacement>
    ensures { result ≡ equal_fact one two (Some first) (Some second) }
{
    match (first, second) {
        (Node::Input { .. }, Node::Input { .. }) => {
            if one.0 < two.0 {
                Some(Replacement {
                    input: two,
                    term: one,
                })
            } else {
                Some(Replacement {
                    input: one,
                    term: two,
                })
            }
        }
        (Node::Input { .. }, _) => Some(Replacement {
            input: one,
            term: two,
        }),
        (_, Node::Input { .. }) => Some(Replacement {
            input: two,
            term: one,
        }),
        _ => None,
    }
}

/// The same of a pair.
fn fact_of(bank: &Bank, pair: Pair) -> Option<Replacement>
    requires { WordsAlike bank.now pair.one pair.two }
    ensures { result ≡ fact_of bank.now pair }
{
    equal_fact(pair.one, pair.two, bank.node(pair.one), bank.node(pair.two))
}

/// The same of all pairs. Its only error is out of memory.
fn found(alloc: Global, bank: &Bank, pairs: &[Pair]) -> Result<Replacements, NoMemory>
    requires { PairsFit bank.now pairs.now }
    ensures { IfOk result (λ list. list ≡ found bank.now pairs.now) }
{
    let mut facts = Replacements::new(alloc);
    for pair in pairs {
        put(&mut facts, fact_of(bank, *pair))?;
    }
    Ok(facts)
}

/// What a hypothesis of one digit says of inputs: of a conjunct that equates an input with a term, that the term may stand for the input; of
/// an input of one digit or its complement, that a constant may; of a pick of two conjunctions that each say what one input is, that the pick
/// of these may. Where the hypothesis is 1, each has its input's value. Its only error is out of memory.
pub fn facts<B: Book>(
    alloc: Global,
    bank: &mut Bank,
    book: &B,
    hypothesis: Id,
) -> Result<Replacements, NoMemory>
    requires hypothesis { HasWidth bank.old hypothesis 1 }
    ensures nodes { OnOk result (bank.new ≡ (facts_in (B.kinds book.now) hypothesis bank.old).nodes) }
    ensures form { IfOk result (λ list. list ≡ (facts_in (B.kinds book.now) hypothesis bank.old).value) }
    ensures fit { IfOk result (AreFit bank.new) }
    ensures true_under { IfOk result (AreTrueUnder bank.new hypothesis) }
    ensures grows { Extends bank.old bank.new }
    ensures keeps { KeepsValues bank.old bank.new }
    ensures bank { IsBank bank.new }
{
    facts_by(alloc, bank, book, hypothesis)
}

/// What `facts` does.
fn facts_by<B: Book>(
    alloc: Global,
    bank: &mut Bank,
    book: &B,
    hypothesis: Id,
) -> Result<Replacements, NoMemory>
    requires hypothesis { HasWidth bank.old hypothesis 1 }
    ensures nodes { OnOk result (bank.new ≡ (facts_in (B.kinds book.now) hypothesis bank.old).nodes) }
    ensures form { IfOk result (λ list. list ≡ (facts_in (B.kinds book.now) hypothesis bank.old).value) }
    ensures grows { Extends bank.old bank.new }
    ensures bank { IsBank bank.new }
{
    let one = bank.make(Node::Const(Word { width: 1, bits: 1 }), book)?;
    let zero = bank.make(Node::Const(Word { width: 1, bits: 0 }), book)?;
    let conjuncts = conjuncts_of(alloc, bank, hypothesis)?;
    let pairs = equations(alloc, bank, one, zero, conjuncts.as_slice())?;
    let mut facts = found(alloc, bank, pairs.as_slice())?;
    let joins = joins(alloc, bank, one, zero, conjuncts.as_slice())?;
    make_joins(bank, book, joins.as_slice(), &mut facts)?;
    Ok(facts)
}
