//! The pick between two words.

ghost use Rattle.std.specs.Prelude.{◌≡◌, ◌==◌, IfOk, OnOk, slice_get};
ghost use Rattle.ygg_bank.specs.Inputs.{KeepsInputs};
ghost use Rattle.ygg_bank.specs.Making.{known_in};
ghost use Rattle.ygg_bank.specs.Nodes.{CanPick, Extends, HasWidth, IsBank, Stands, width_at, widths_of};
ghost use Rattle.ygg_bank.specs.Values.{KeepsValues};
ghost use Rattle.ygg_shape_words.specs.Picking.{ChoiceFits, IsPicked, choice_of, choice_at, picked};

use ygg_bank::{Bank, Id, NoMemory, Node};
use ygg_rules::Book;
use ygg_value::{Op, Word};

/// How a pick between two words is made.
#[derive(Clone, Copy, Drop)]
pub enum Choice {
    /// Both words are one term.
    One,
    /// A single digit that is 1 where the test is 1.
    YesIsOne,
    /// A single digit that is 0 where the test is 1.
    YesIsZero,
    /// A single digit that is 1 where the test is 0.
    NoIsOne,
    /// A single digit that is 0 where the test is 0.
    NoIsZero,
    /// Nothing of these.
    Plain,
}

/// The word that a term is, where it is a constant.
pub fn known(bank: &Bank, at: Id) -> Option<Word>
    requires { Stands bank.now at }
    ensures { result ≡ known_in (slice_get bank.now at.0) }
{
    match bank.node(at) {
        Node::Const(word) => Some(word),
        _ => None,
    }
}

/// How the pick is made of two words, of which it is known whether they are single digits and which constants they are.
fn choice_of(one: bool, digits: bool, yes: Option<Word>, no: Option<Word>) -> Choice
    ensures { result ≡ choice_of one digits yes no }
{
    if one {
        return Choice::One;
    }
    if !digits {
        return Choice::Plain;
    }
    match (yes, no) {
        (Some(word), _) => {
            if word.bits == 1 {
                Choice::YesIsOne
            } else {
                Choice::YesIsZero
            }
        }
        (None, Some(word)) => {
            if word.bits == 1 {
                Choice::NoIsOne
            } else {
                Choice::NoIsZero
            }
        }
        (None, None) => Choice::Plain,
    }
}

/// How the pick is made.
fn choice_at(bank: &Bank, yes: Id, no: Id) -> Choice
    requires yes { Stands bank.now yes }
    requires no { Stands bank.now no }
    ensures value { result ≡ choice_at bank.now yes no }
    ensures fits { ChoiceFits bank.now yes no result }
{
    choice_of(
        yes.0 == no.0,
        bank.width(yes) == 1,
        known(bank, yes),
        known(bank, no),
    )
}

/// `yes` where the test is 1, and else `no`, in every environment. Of single digits one of which is a constant it makes a conjunction or a
/// disjunction. Its only error is out of memory, after which the bank may have more nodes.
pub fn pick<B: Book>(bank: &mut Bank, book: &B, test: Id, yes: Id, no: Id) -> Result<Id, NoMemory>
    requires bank { IsBank bank.old }
    requires pick { CanPick bank.old test yes no }
    ensures nodes { OnOk result (bank.new ≡ (picked (B.kinds book.now) test yes no bank.old).nodes) }
    ensures form { IfOk result (λ id. id ≡ (picked (B.kinds book.now) test yes no bank.old).value) }
    ensures width { IfOk result (λ id. HasWidth bank.new id (width_at (widths_of bank.old) yes)) }
    ensures value { IfOk result (IsPicked bank.new test yes no) }
    ensures grows { Extends bank.old bank.new }
    ensures keeps { KeepsValues bank.old bank.new }
    ensures bank { IsBank bank.new }
    ensures inputs { KeepsInputs bank.old bank.new }
{
    pick_by(bank, book, test, yes, no)
}

/// What `pick` does.
fn pick_by<B: Book>(bank: &mut Bank, book: &B, test: Id, yes: Id, no: Id) -> Result<Id, NoMemory>
    requires bank { IsBank bank.old }
    requires pick { CanPick bank.old test yes no }
    ensures nodes { OnOk result (bank.new ≡ (picked (B.kinds book.now) test yes no bank.old).nodes) }
    ensures form { IfOk result (λ id. id ≡ (picked (B.kinds book.now) test yes no bank.old).value) }
    ensures width { IfOk result (λ id. HasWidth bank.new id (width_at (widths_of bank.old) yes)) }
    ensures grows { Extends bank.old bank.new }
    ensures bank { IsBank bank.new }
    ensures inputs { KeepsInputs bank.old bank.new }
{
    match choice_at(bank, yes, no) {
        Choice::One => Ok(yes),
        Choice::YesIsOne => bank.make(
            Node::Bin {
                op: Op::Or,
                a: test,
                b: no,
            },
            book,
        ),
        Choice::YesIsZero => {
            let other = bank.make(Node::Not { a: test }, book)?;
            bank.make(
                Node::Bin {
                    op: Op::And,
                    a: other,
                    b: no,
                },
                book,
            )
        }
        Choice::NoIsOne => {
            let other = bank.make(Node::Not { a: test }, book)?;
            bank.make(
                Node::Bin {
                    op: Op::Or,
                    a: other,
                    b: yes,
                },
                book,
            )
        }
        Choice::NoIsZero => bank.make(
            Node::Bin {
                op: Op::And,
                a: test,
                b: yes,
            },
            book,
        ),
        Choice::Plain => bank.make(Node::Pick { test, yes, no }, book),
    }
}
