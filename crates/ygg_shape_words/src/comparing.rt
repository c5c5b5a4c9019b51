//! The equality of two words.

ghost use Rattle.std.specs.Prelude.{◌≡◌, IfOk, OnOk, Some};
ghost use Rattle.ygg_bank.specs.Making.{made};
ghost use Rattle.ygg_bank.specs.declared.node.Node.TheVariants as node;
ghost use Rattle.ygg_value.specs.declared.operation.Op.TheVariants as op;
ghost use Rattle.ygg_bank.specs.Inputs.{KeepsInputs};
ghost use Rattle.ygg_bank.specs.Nodes.{Extends, HasWidth, IsBank, Stands};
ghost use Rattle.ygg_bank.specs.Values.{KeepsValues};
ghost use Rattle.ygg_shape_words.specs.Forms.{FormFits, WordsAlike};
ghost use Rattle.ygg_shape_words.specs.Same.{IsAnswer, IsSame, KnownFit, form_at, known_for, learned, same_within, same_words, spent};

use crate::forms::{Form, form_of};
use crate::picking::pick;
use std::marker::Model;
use ygg_bank::{Bank, Id, NoMemory, Node};
use ygg_rules::Book;
use ygg_value::{Op, Word};

/// How many pairs of words may be split where two words are compared.
pub const SPLIT_LIMIT: u32 = 600;

/// Two words, and the term that says whether they are equal.
#[derive(Clone, Copy, Drop)]
pub struct Compared {
    /// One word.
    pub one: Id,
    /// The other word.
    pub two: Id,
    /// The term that is 1 where they are equal.
    pub answer: Id,
}

/// How far a comparison has come.
#[derive(Drop)]
pub struct Progress {
    // how many pairs may still be split
    fuel: u32,
    // the pairs that were
    known: Vec<Compared>,
}

impl Model for Progress {
    ghost use Rattle.ygg_shape_words.specs.Same.{SoFar};

    ghost Value = { SoFar };

    ghost view = { λ p. record { fuel = p.fuel; known = p.known.items } };
}

impl Progress {
    /// One pair fewer may be split.
    fn spend(&mut self)
        ensures { self.new ≡ spent self.old }
    {
        self.fuel = self.fuel.saturating_sub(1);
    }

    /// What is known of a pair, where anything is.
    fn known_for(&self, one: Id, two: Id) -> Option<Id>
        ensures { result ≡ known_for self.now.known one two }
    {
        for known in self.known.as_slice() {
            if known.one.0 == one.0 && known.two.0 == two.0 {
                return Some(known.answer);
            }
        }
        None
    }

    /// The pair has this answer from now on. Its only error is out of memory.
    fn learn(&mut self, one: Id, two: Id, answer: Id) -> Result<Id, NoMemory>
        ensures answer { IfOk result (λ id. id ≡ answer) }
        ensures learned { OnOk result (self.new ≡ (learned one two self.old answer).so_far) }
    {
        let compared = Compared { one, two, answer };
        if self.known.push(compared).is_err() {
            return Err(NoMemory);
        }
        Ok(answer)
    }
}

/// How the equality of two words goes on.
fn form_at(bank: &Bank, progress: &Progress, one: Id, two: Id) -> Form
    requires words { WordsAlike bank.now one two }
    requires known { KnownFit bank.now progress.now.known }
    ensures value { result ≡ form_at progress.now bank.now one two }
    ensures fits { FormFits bank.now result }
{
    let _ = bank.len();
    form_at_by(bank, progress, one, two)
}

/// What `form_at` does.
fn form_at_by(bank: &Bank, progress: &Progress, one: Id, two: Id) -> Form
    requires bank { IsBank bank.now }
    requires words { WordsAlike bank.now one two }
    ensures { result ≡ form_at progress.now bank.now one two }
{
    if one.0 == two.0 {
        return Form::One;
    }
    match progress.known_for(one, two) {
        Some(answer) => Form::Known(answer),
        None => {
            if progress.fuel == 0 {
                Form::Plain
            } else {
                form_of(bank, one, two, bank.node(one), bank.node(two))
            }
        }
    }
}

/// Whether two words are equal, with so many splits one within another.
fn same_within<B: Book>(
    bank: &mut Bank,
    book: &B,
    depth: u32,
    progress: &mut Progress,
    one: Id,
    two: Id,
) -> Result<Id, NoMemory>
    requires bank { IsBank bank.old }
    requires words { WordsAlike bank.old one two }
    requires known { KnownFit bank.old progress.old.known }
    ensures made { IfOk result (λ id. IsAnswer (same_within (B.kinds book.now) depth progress.old one two) bank.old bank.new id progress.new) }
    ensures known { OnOk result (KnownFit bank.new progress.new.known) }
    ensures width { IfOk result (λ id. HasWidth bank.new id 1) }
    ensures grows { Extends bank.old bank.new }
    ensures bank { IsBank bank.new }
    ensures inputs { KeepsInputs bank.old bank.new }
{
    if depth == 0 {
        return plain(bank, book, one, two);
    }
    match form_at(bank, progress, one, two) {
        Form::One => bank.make(Node::Const(Word { width: 1, bits: 1 }), book),
        Form::Never => bank.make(Node::Const(Word { width: 1, bits: 0 }), book),
        Form::Known(answer) => Ok(answer),
        Form::Plain => plain(bank, book, one, two),
        Form::Split {
            test,
            yes_one,
            yes_two,
            no_one,
            no_two,
        } => {
            progress.spend();
            let yes = same_within(bank, book, depth - 1, progress, yes_one, yes_two)?;
            let no = same_within(bank, book, depth - 1, progress, no_one, no_two)?;
            let answer = pick(bank, book, test, yes, no)?;
            progress.learn(one, two, answer)
        }
        Form::Either {
            one: x,
            two: y,
            other_one,
            other_two,
        } => {
            progress.spend();
            let first = same_within(bank, book, depth - 1, progress, x, y)?;
            let second = same_within(bank, book, depth - 1, progress, other_one, other_two)?;
            let answer = either(bank, book, first, second)?;
            progress.learn(one, two, answer)
        }
        Form::Against { term, word } => {
            progress.spend();
            let constant = bank.make(Node::Const(word), book)?;
            let answer = same_within(bank, book, depth - 1, progress, term, constant)?;
            progress.learn(one, two, answer)
        }
    }
}

/// The words compared as they are.
fn plain<B: Book>(bank: &mut Bank, book: &B, one: Id, two: Id) -> Result<Id, NoMemory>
    requires { WordsAlike bank.old one two }
    ensures nodes { OnOk result (bank.new ≡ (made (B.kinds book.now) (node.Bin op.Eq one two) bank.old).nodes) }
    ensures form { IfOk result (λ id. id ≡ (made (B.kinds book.now) (node.Bin op.Eq one two) bank.old).value) }
    ensures width { IfOk result (λ id. HasWidth bank.new id 1) }
    ensures grows { Extends bank.old bank.new }
    ensures bank { IsBank bank.new }
    ensures inputs { KeepsInputs bank.old bank.new }
{
    bank.make(
        Node::Bin {
            op: Op::Eq,
            a: one,
            b: two,
        },
        book,
    )
}

/// The disjunction of two single digits.
fn either<B: Book>(bank: &mut Bank, book: &B, one: Id, two: Id) -> Result<Id, NoMemory>
    requires one { HasWidth bank.old one 1 }
    requires two { HasWidth bank.old two 1 }
    ensures nodes { OnOk result (bank.new ≡ (made (B.kinds book.now) (node.Bin op.Or one two) bank.old).nodes) }
    ensures form { IfOk result (λ id. id ≡ (made (B.kinds book.now) (node.Bin op.Or one two) bank.old).value) }
    ensures width { IfOk result (λ id. HasWidth bank.new id 1) }
    ensures grows { Extends bank.old bank.new }
    ensures bank { IsBank bank.new }
    ensures inputs { KeepsInputs bank.old bank.new }
{
    bank.make(
        Node::Bin {
            op: Op::Or,
            a: one,
            b: two,
        },
        book,
    )
}

/// The term that is 1 where two words of one width are equal, and 0 where they aren't, in every environment. Picks on either side are moved
/// out, and sums, differences, products by an odd constant, complements and added digits undone where the other side is a constant, up to `SPLIT_LIMIT`
/// in all. Its only error is out of memory, after which the bank may have more nodes.
pub fn same<B: Book>(bank: &mut Bank, book: &B, one: Id, two: Id) -> Result<Id, NoMemory>
    requires words { WordsAlike bank.old one two }
    ensures nodes { OnOk result (bank.new ≡ (same_words (B.kinds book.now) one two bank.old).nodes) }
    ensures form { IfOk result (λ id. id ≡ (same_words (B.kinds book.now) one two bank.old).value) }
    ensures width { IfOk result (λ id. HasWidth bank.new id 1) }
    ensures value { IfOk result (IsSame bank.new one two) }
    ensures grows { Extends bank.old bank.new }
    ensures keeps { KeepsValues bank.old bank.new }
    ensures bank { IsBank bank.new }
    ensures inputs { KeepsInputs bank.old bank.new }
{
    // the bank's nodes stand in order
    let _ = bank.len();
    same_by(bank, book, one, two)
}

/// What `same` does.
fn same_by<B: Book>(bank: &mut Bank, book: &B, one: Id, two: Id) -> Result<Id, NoMemory>
    requires bank { IsBank bank.old }
    requires words { WordsAlike bank.old one two }
    ensures nodes { OnOk result (bank.new ≡ (same_words (B.kinds book.now) one two bank.old).nodes) }
    ensures form { IfOk result (λ id. id ≡ (same_words (B.kinds book.now) one two bank.old).value) }
    ensures width { IfOk result (λ id. HasWidth bank.new id 1) }
    ensures grows { Extends bank.old bank.new }
    ensures bank { IsBank bank.new }
    ensures inputs { KeepsInputs bank.old bank.new }
{
    let mut progress = Progress {
        fuel: SPLIT_LIMIT,
        known: Vec::new(bank.allocator()),
    };
    same_within(bank, book, SPLIT_LIMIT, &mut progress, one, two)
}
