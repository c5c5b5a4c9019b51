//! Sums in place of picks between a term and that term with more added to it.

ghost use Rattle.std.specs.Prelude.{◌≡◌, Some, slice_get, IfOk, OnOk};
ghost use Rattle.ygg_shape_words.specs.ygg_rules.Views.{IsWidth};
ghost use Rattle.ygg_shape_words.specs.ygg_bank.Nodes.{Extends, HasWidth, IsBank, Stands};
ghost use Rattle.ygg_shape_sums.specs.Sharing.{added_to, either, is_pick, more_where, shared_pick, shared_inside, shared_sum, shared_within, sharing_of};

use crate::siding::{constant, sum};
use ygg_shape_words::{Bank, Book, Id, NoMemory, Node, pick};
use ygg_value::Op;

/// How many picks one within another are sums.
pub const SHARE_LIMIT: u32 = 64;

/// How many other picks one within another these are looked for in.
pub const INSIDE_LIMIT: u32 = 6;

/// How a term is a sum.
#[derive(Clone, Copy, Drop)]
pub enum Sharing {
    /// It isn't one.
    Apart,
    /// A term, and a pick.
    Beside {
        other: Id,
        pick: Id,
    },
    /// A pick that is a term, and another one added to it where the test is the digit.
    More {
        test: Id,
        digit: bool,
        base: Id,
        more: Id,
    },
    /// A pick of any two words.
    Either {
        test: Id,
        yes: Id,
        no: Id,
    },
}

/// How a term is a sum.
fn sharing_of(bank: &Bank, term: Id) -> Sharing
    requires bank { IsBank bank.now }
    requires term { Stands bank.now term }
    ensures { result ≡ sharing_of bank.now (slice_get bank.now term.0) }
{
    match bank.node(term) {
        Node::Bin { op: Op::Add, a, b } => {
            shared_sum(a, b, is_pick(bank.node(a)), is_pick(bank.node(b)))
        }
        Node::Pick { test, yes, no } => {
            let one = added_to(no, bank.node(yes));
            let two = added_to(yes, bank.node(no));
            shared_pick(test, yes, no, one, two)
        }
        _ => Sharing::Apart,
    }
}

/// What a sum adds to this term, where that is one of its operands.
fn added_to(base: Id, node: Node) -> Option<Id>
    ensures { result ≡ added_to base (Some node) }
{
    match node {
        Node::Bin { op: Op::Add, a, b } => {
            if a.0 == base.0 {
                Some(b)
            } else if b.0 == base.0 {
                Some(a)
            } else {
                None
            }
        }
        _ => None,
    }
}

/// A pick of two words, to one of which more is added in the other, or of any two.
fn shared_pick(test: Id, yes: Id, no: Id, one: Option<Id>, two: Option<Id>) -> Sharing
    ensures { result ≡ shared_pick test yes no one two }
{
    match (one, two) {
        (Some(more), _) => Sharing::More {
            test,
            digit: true,
            base: no,
            more,
        },
        (None, Some(more)) => Sharing::More {
            test,
            digit: false,
            base: yes,
            more,
        },
        (None, None) => Sharing::Either { test, yes, no },
    }
}

/// Whether a term is a pick.
fn is_pick(node: Node) -> bool
    ensures { result ≡ is_pick (Some node) }
{
    matches!(node, Node::Pick { .. })
}

/// A sum, one of whose operands is a pick.
fn shared_sum(one: Id, two: Id, first: bool, second: bool) -> Sharing
    ensures { result ≡ shared_sum one two first second }
{
    match (first, second) {
        (_, true) => Sharing::Beside {
            other: one,
            pick: two,
        },
        (true, false) => Sharing::Beside {
            other: two,
            pick: one,
        },
        (false, false) => Sharing::Apart,
    }
}

/// The term, where picks are sums, as many one within another as the number says.
fn shared_within<B: Book>(
    bank: &mut Bank,
    book: &B,
    width: u8,
    depth: u32,
    term: Id,
) -> Result<Id, NoMemory>
    requires bank { IsBank bank.old }
    requires width { IsWidth width }
    requires term { HasWidth bank.old term width }
    ensures nodes { OnOk result (bank.new ≡ (shared_within (B.kinds book.now) width depth term bank.old).nodes) }
    ensures form { IfOk result (λ id. id ≡ (shared_within (B.kinds book.now) width depth term bank.old).value) }
    ensures width { IfOk result (λ id. HasWidth bank.new id width) }
    ensures grows { Extends bank.old bank.new }
    ensures bank { IsBank bank.new }
{
    if depth == 0 {
        return Ok(term);
    }
    match sharing_of(bank, term) {
        Sharing::Apart => Ok(term),
        Sharing::Either { .. } => Ok(term),
        Sharing::Beside { other, pick } => {
            let inner = shared_within(bank, book, width, depth - 1, pick)?;
            sum(bank, book, width, other, inner)
        }
        Sharing::More {
            test,
            digit,
            base,
            more,
        } => {
            let inner = shared_within(bank, book, width, depth - 1, base)?;
            more_where(bank, book, width, test, digit, more, inner)
        }
    }
}

/// The term, where picks are sums, also below other picks, as many one within another as the number says.
pub fn shared_inside<B: Book>(
    bank: &mut Bank,
    book: &B,
    width: u8,
    depth: u32,
    term: Id,
) -> Result<Id, NoMemory>
    requires bank { IsBank bank.old }
    requires width { IsWidth width }
    requires term { HasWidth bank.old term width }
    ensures nodes { OnOk result (bank.new ≡ (shared_inside (B.kinds book.now) width depth term bank.old).nodes) }
    ensures form { IfOk result (λ id. id ≡ (shared_inside (B.kinds book.now) width depth term bank.old).value) }
    ensures width { IfOk result (λ id. HasWidth bank.new id width) }
    ensures grows { Extends bank.old bank.new }
    ensures bank { IsBank bank.new }
{
    if depth == 0 {
        return shared_within(bank, book, width, SHARE_LIMIT, term);
    }
    match sharing_of(bank, term) {
        Sharing::Either { test, yes, no } => {
            let one = shared_inside(bank, book, width, depth - 1, yes)?;
            let two = shared_inside(bank, book, width, depth - 1, no)?;
            pick(bank, book, test, one, two)
        }
        Sharing::Apart => shared_within(bank, book, width, SHARE_LIMIT, term),
        Sharing::Beside { .. } => shared_within(bank, book, width, SHARE_LIMIT, term),
        Sharing::More { .. } => shared_within(bank, book, width, SHARE_LIMIT, term),
    }
}

/// A word, and another one where the test is the digit.
fn more_where<B: Book>(
    bank: &mut Bank,
    book: &B,
    width: u8,
    test: Id,
    digit: bool,
    more: Id,
    base: Id,
) -> Result<Id, NoMemory>
    requires bank { IsBank bank.old }
    requires width { IsWidth width }
    requires test { HasWidth bank.old test 1 }
    requires more { HasWidth bank.old more width }
    requires base { HasWidth bank.old base width }
    ensures nodes { OnOk result (bank.new ≡ (more_where (B.kinds book.now) width test digit more base bank.old).nodes) }
    ensures form { IfOk result (λ id. id ≡ (more_where (B.kinds book.now) width test digit more base bank.old).value) }
    ensures width { IfOk result (λ id. HasWidth bank.new id width) }
    ensures grows { Extends bank.old bank.new }
    ensures bank { IsBank bank.new }
{
    let zero = constant(bank, book, width, 0)?;
    let yes = either(digit, more, zero);
    let no = either(digit, zero, more);
    let part = pick(bank, book, test, yes, no)?;
    sum(bank, book, width, base, part)
}

/// One of two, as a digit says.
fn either(digit: bool, one: Id, two: Id) -> Id
    ensures { result ≡ either digit one two }
{
    if digit { one } else { two }
}
