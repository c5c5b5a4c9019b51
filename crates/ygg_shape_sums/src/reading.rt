//! What a term is, as a sum of terms.

ghost use Rattle.std.specs.Prelude.{◌≡◌, ◌++◌, ◌∷◌, [], IfOk, slice_get};
ghost use Rattle.ygg_shape_words.specs.ygg_bank.Nodes.{IsBank, Stands};
ghost use Rattle.ygg_shape_sums.specs.Readings.{FactsFit, decided, differ, excluded, fact, read, read_bin, said};

use crate::parts::copied;
use ygg_shape_words::{Bank, Id, NoMemory, Node, known};
use ygg_value::{Op, Word};

/// What added to 1 gives 0.
pub const LESS_ONE: u64 = 0xffff_ffff_ffff_ffff;

/// A test, and the digit that it is taken to be.
#[derive(Clone, Copy, Drop)]
pub struct Fact {
    /// The test.
    pub test: Id,
    /// Whether it is 1.
    pub yes: bool,
}

/// What a term is.
#[derive(Clone, Copy, Drop)]
pub enum Decomposition {
    /// No sum.
    Whole,
    /// This number.
    Number(u64),
    /// Another term so many times, and a number.
    Times { times: u64, term: Id, number: u64 },
    /// A term, and another so many times.
    Both { one: Id, times: u64, two: Id },
}

/// One fact more. Its only error is out of memory.
pub fn with(bank: &Bank, facts: &[Fact], test: Id, yes: bool) -> Result<Vec<Fact>, NoMemory>
    ensures { IfOk result (λ more. more.items ≡ facts.now ++ fact test yes ∷ []) }
{
    let mut more = copied(bank.allocator(), facts)?;
    if more.push(Fact { test, yes }).is_err() {
        return Err(NoMemory);
    }
    Ok(more)
}

/// What a term is, as a sum of terms, where the facts hold.
pub fn read(bank: &Bank, facts: &[Fact], term: Id) -> Decomposition
    requires bank { IsBank bank.now }
    requires facts { FactsFit bank.now facts.now }
    requires term { Stands bank.now term }
    ensures { result ≡ read bank.now facts.now (slice_get bank.now term.0) }
{
    match bank.node(term) {
        Node::Const(word) => Decomposition::Number(word.bits),
        Node::Bin { op, a, b } => read_bin(op, a, b, known(bank, a), known(bank, b)),
        Node::Not { a } => Decomposition::Times {
            times: LESS_ONE,
            term: a,
            number: LESS_ONE,
        },
        Node::Pick { test, yes, no } => match decided(bank, facts, test) {
            Some(digit) => Decomposition::Times {
                times: 1,
                term: if digit { yes } else { no },
                number: 0,
            },
            None => Decomposition::Whole,
        },
        Node::Input { .. } | Node::Resize { .. } => Decomposition::Whole,
    }
}

/// What an operation is, where these constants are known of its operands.
fn read_bin(op: Op, one: Id, two: Id, first: Option<Word>, second: Option<Word>) -> Decomposition
    ensures { result ≡ read_bin op one two first second }
{
    match (op, first, second) {
        (Op::Add, _, _) => Decomposition::Both { one, times: 1, two },
        (Op::Sub, _, _) => Decomposition::Both {
            one,
            times: LESS_ONE,
            two,
        },
        (Op::Mul, _, Some(word)) => Decomposition::Times {
            times: word.bits,
            term: one,
            number: 0,
        },
        (Op::Mul, Some(word), None) => Decomposition::Times {
            times: word.bits,
            term: two,
            number: 0,
        },
        _ => Decomposition::Whole,
    }
}

/// What the first fact that says anything says of a test.
fn decided(bank: &Bank, facts: &[Fact], test: Id) -> Option<bool>
    requires bank { IsBank bank.now }
    requires facts { FactsFit bank.now facts.now }
    requires test { Stands bank.now test }
    ensures { result ≡ decided bank.now facts.now test }
{
    for fact in facts {
        if let Some(digit) = said(bank, *fact, test) {
            return Some(digit);
        }
    }
    None
}

/// What a fact says of a test, where it says anything.
fn said(bank: &Bank, fact: Fact, test: Id) -> Option<bool>
    requires bank { IsBank bank.now }
    requires fact { Stands bank.now fact.test }
    requires test { Stands bank.now test }
    ensures { result ≡ said bank.now fact test }
{
    if fact.test.0 == test.0 {
        return Some(fact.yes);
    }
    if fact.yes {
        excluded(bank, fact.test, test)
    } else {
        None
    }
}

/// What the second test is, where the first is 1: a term isn't equal to two constants.
fn excluded(bank: &Bank, holds: Id, test: Id) -> Option<bool>
    requires bank { IsBank bank.now }
    requires holds { Stands bank.now holds }
    requires test { Stands bank.now test }
    ensures { result ≡ excluded bank.now (slice_get bank.now holds.0) (slice_get bank.now test.0) }
{
    match (bank.node(holds), bank.node(test)) {
        (
            Node::Bin {
                op: Op::Eq,
                a: x,
                b: k,
            },
            Node::Bin {
                op: Op::Eq,
                a: y,
                b: m,
            },
        ) => {
            if x.0 == y.0 {
                differ(known(bank, k), known(bank, m))
            } else {
                None
            }
        }
        _ => None,
    }
}

/// Of a term that is one constant, it is known that it isn't the other.
fn differ(one: Option<Word>, two: Option<Word>) -> Option<bool>
    ensures { result ≡ differ one two }
{
    match (one, two) {
        (Some(one), Some(two)) => {
            if one.bits == two.bits {
                None
            } else {
                Some(false)
            }
        }
        _ => None,
    }
}
