//! Words where a test is known.

ghost use Rattle.std.specs.Prelude.{◌≡◌, IfOk, OnOk};
ghost use Rattle.ygg_bank.specs.Inputs.{KeepsInputs};
ghost use Rattle.ygg_bank.specs.Nodes.{Extends, HasWidth, IsBank, Stands};
ghost use Rattle.ygg_bank.specs.Values.{KeepsValues};
ghost use Rattle.ygg_shape_words.specs.Giving.{FurtherFits, IsGiven, IsPruned, SameWidth, way_on, given, given_within, side_of};

use crate::deciding::decided;
use crate::picking::pick;
use ygg_bank::{Bank, Id, NoMemory, Node};
use ygg_rules::Book;

/// How many picks a word is looked through, in all.
pub const GIVEN_LIMIT: u32 = 300;

/// How a word goes on.
#[derive(Clone, Copy, Drop)]
pub enum Further {
    /// It stays.
    Whole,
    /// It is this word there.
    Side(Id),
    /// It is a pick of these words, whose test may be 1 and may be 0 there.
    Both {
        /// The test.
        test: Id,
        /// The word where it is 1.
        yes: Id,
        /// The word where it is 0.
        no: Id,
    },
}

/// How a word goes on where a test has a value, while so many picks may be looked through.
fn way_on(bank: &Bank, test: Id, value: bool, fuel: u32, word: Id) -> Further
    requires bank { IsBank bank.now }
    requires test { Stands bank.now test }
    requires word { Stands bank.now word }
    ensures value { result ≡ way_on bank.now test value fuel word }
    ensures fits { FurtherFits bank.now word result }
{
    way_on_by(bank, test, value, fuel, word)
}

/// What `way_on` does.
fn way_on_by(bank: &Bank, test: Id, value: bool, fuel: u32, word: Id) -> Further
    requires bank { IsBank bank.now }
    requires test { Stands bank.now test }
    requires word { Stands bank.now word }
    ensures { result ≡ way_on bank.now test value fuel word }
{
    if fuel == 0 {
        return Further::Whole;
    }
    match bank.node(word) {
        Node::Pick { test: own, yes, no } => side_of(decided(bank, test, value, own), own, yes, no),
        _ => Further::Whole,
    }
}

/// How a pick goes on whose test has this value, if one is known.
fn side_of(value: Option<bool>, test: Id, yes: Id, no: Id) -> Further
    ensures { result ≡ side_of value test yes no }
{
    match value {
        Some(true) => Further::Side(yes),
        Some(false) => Further::Side(no),
        None => Further::Both { test, yes, no },
    }
}

/// The word where a test has a value: picks that this decides are one of their words, those of the others are picked anew, up to
/// `GIVEN_LIMIT` in all. Where the test has the value, the answer has the word's value in every environment. Its only error is out of memory,
/// after which the bank may have more nodes.
pub fn given<B: Book>(
    bank: &mut Bank,
    book: &B,
    test: Id,
    value: bool,
    word: Id,
) -> Result<Id, NoMemory>
    requires bank { IsBank bank.old }
    requires test { Stands bank.old test }
    requires word { Stands bank.old word }
    ensures nodes { OnOk result (bank.new ≡ (given (B.kinds book.now) test value word bank.old).nodes) }
    ensures form { IfOk result (λ id. id ≡ (given (B.kinds book.now) test value word bank.old).value) }
    ensures width { IfOk result (SameWidth bank.old word bank.new) }
    ensures value { IfOk result (IsGiven bank.new test value word) }
    ensures grows { Extends bank.old bank.new }
    ensures keeps { KeepsValues bank.old bank.new }
    ensures bank { IsBank bank.new }
    ensures inputs { KeepsInputs bank.old bank.new }
{
    given_by(bank, book, test, value, word)
}

/// What `given` does.
fn given_by<B: Book>(
    bank: &mut Bank,
    book: &B,
    test: Id,
    value: bool,
    word: Id,
) -> Result<Id, NoMemory>
    requires bank { IsBank bank.old }
    requires test { Stands bank.old test }
    requires word { Stands bank.old word }
    ensures nodes { OnOk result (bank.new ≡ (given (B.kinds book.now) test value word bank.old).nodes) }
    ensures form { IfOk result (λ id. id ≡ (given (B.kinds book.now) test value word bank.old).value) }
    ensures width { IfOk result (SameWidth bank.old word bank.new) }
    ensures grows { Extends bank.old bank.new }
    ensures bank { IsBank bank.new }
    ensures inputs { KeepsInputs bank.old bank.new }
{
    let mut fuel = GIVEN_LIMIT;
    given_within(bank, book, test, value, GIVEN_LIMIT, &mut fuel, word)
}

/// The word where a test has a value, with so many picks one within another, and so many in all.
fn given_within<B: Book>(
    bank: &mut Bank,
    book: &B,
    test: Id,
    value: bool,
    depth: u32,
    fuel: &mut u32,
    word: Id,
) -> Result<Id, NoMemory>
    requires bank { IsBank bank.old }
    requires test { Stands bank.old test }
    requires word { Stands bank.old word }
    ensures made { IfOk result (λ id. IsPruned (given_within (B.kinds book.now) test value depth fuel.old word) bank.old bank.new id fuel.new) }
    ensures width { IfOk result (SameWidth bank.old word bank.new) }
    ensures grows { Extends bank.old bank.new }
    ensures bank { IsBank bank.new }
    ensures inputs { KeepsInputs bank.old bank.new }
{
    if depth == 0 {
        return Ok(word);
    }
    match way_on(bank, test, value, *fuel, word) {
        Further::Whole => Ok(word),
        Further::Side(side) => {
            *fuel = fuel.saturating_sub(1);
            given_within(bank, book, test, value, depth - 1, fuel, side)
        }
        Further::Both { test: own, yes, no } => {
            *fuel = fuel.saturating_sub(1);
            let one = given_within(bank, book, test, value, depth - 1, fuel, yes)?;
            let two = given_within(bank, book, test, value, depth - 1, fuel, no)?;
            pick(bank, book, own, one, two)
        }
    }
}
