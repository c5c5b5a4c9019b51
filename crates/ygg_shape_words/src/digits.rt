//! Which digits of a term may be 1.

ghost use Rattle.std.specs.Prelude.{◌≡◌};
ghost use Rattle.ygg_rules.specs.Views.{IsWidth};
ghost use Rattle.ygg_bank.specs.Nodes.{IsBank, Stands};
ghost use Rattle.ygg_shape_words.specs.Digits.{all_ones, may_be, may_bin, may_have, may_within};

use crate::picking::known;
use ygg_bank::{Bank, Id, Node};
use ygg_value::{Op, Word, apply, not, resize};

/// How many nodes below one another are looked at.
pub const DIGIT_DEPTH: u32 = 8;

/// The word of this width whose digits are all 1.
fn all_ones(width: u8) -> Word
    requires { IsWidth width }
    ensures { result ≡ all_ones width }
{
    not(Word { width, bits: 0 })
}

/// The digits that an operation may have.
fn may_bin(op: Op, may: Word, second: Option<Word>, width: u8) -> Word
    requires { IsWidth width }
    ensures { result ≡ may_bin op may second width }
{
    match (op, second) {
        (Op::Shl, Some(by)) => apply(Op::Shl, may, by),
        (Op::Shr, Some(by)) => apply(Op::Shr, may, by),
        (_, _) => all_ones(width),
    }
}

/// The digits that a term may have, where as many nodes below one another are looked at.
fn may_within(bank: &Bank, depth: u32, at: Id) -> Word
    requires bank { IsBank bank.now }
    requires at { Stands bank.now at }
    ensures { result ≡ may_within depth bank.now at }
{
    let width = bank.width(at);
    if depth == 0 {
        return all_ones(width);
    }
    match bank.node(at) {
        Node::Const(word) => word,
        Node::Resize { a, width: digits } => resize(may_within(bank, depth - 1, a), digits),
        Node::Bin { op, a, b } => may_bin(
            op,
            may_within(bank, depth - 1, a),
            known(bank, b),
            width,
        ),
        Node::Input {
            number: _,
            width: _,
        } => all_ones(width),
        Node::Not { a: _ } => all_ones(width),
        Node::Pick {
            test: _,
            yes: _,
            no: _,
        } => all_ones(width),
    }
}

/// The digits that a term may have: a word in which those are 1.
pub fn may_have(bank: &Bank, at: Id) -> Word
    requires bank { IsBank bank.now }
    requires at { Stands bank.now at }
    ensures { result ≡ may_have bank.now at }
{
    may_within(bank, DIGIT_DEPTH, at)
}

/// Whether a term may be a constant: it may have all of its digits.
pub fn may_be(bank: &Bank, at: Id, word: Word) -> bool
    requires bank { IsBank bank.now }
    requires at { Stands bank.now at }
    ensures { result ≡ may_be bank.now at word }
{
    word.bits & may_have(bank, at).bits == word.bits
}
