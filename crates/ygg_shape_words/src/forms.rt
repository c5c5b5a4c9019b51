//! How the equality of two words goes on.

ghost use Rattle.std.specs.Prelude.{◌≡◌, ◌^◌, nat_lt, Some, slice_get};
ghost use Rattle.ygg_rules.specs.Views.{IsWidth};
ghost use Rattle.ygg_bank.specs.Making.{known_in};
ghost use Rattle.ygg_bank.specs.Nodes.{HasWidth, IsBank, Stands};
ghost use Rattle.ygg_shape_words.specs.Forms.{ConstantFits, WordsAlike, against, against_known, form_of, inverse_of, nearer};
ghost use Rattle.ygg_shape_words.specs.Forms.{comes_back, undo_bin, undo_first, undo_node, undo_or, undo_product, undo_resize, undo_second, undo_shift};
ghost use Rattle.ygg_value.specs.Words.{CanApply, apply_to};

use crate::digits::{may_be, may_have};
use crate::picking::known;
use ygg_bank::{Bank, Id, Node};
use ygg_value::{Op, Word, apply, not, resize};

/// How the equality of two words goes on.
#[derive(Clone, Copy, Drop)]
pub enum Form {
    /// The words are equal.
    One,
    /// The words are never equal.
    Never,
    /// This term says whether they are equal.
    Known(Id),
    /// The words are compared as they are.
    Plain,
    /// Where the test is 1, the first two words are compared, and else the others.
    Split {
        test: Id,
        yes_one: Id,
        yes_two: Id,
        no_one: Id,
        no_two: Id,
    },
    /// The first two words are equal, or the others are.
    Either {
        one: Id,
        two: Id,
        other_one: Id,
        other_two: Id,
    },
    /// The term is compared with this constant.
    Against {
        term: Id,
        word: Word,
    },
}

/// How the equality of two nodes, which stand at these places, goes on.
pub fn form_of(bank: &Bank, one: Id, two: Id, first: Node, second: Node) -> Form
    requires bank { IsBank bank.now }
    requires words { WordsAlike bank.now one two }
    requires first { slice_get bank.now one.0 ≡ Some first }
    requires second { slice_get bank.now two.0 ≡ Some second }
    ensures { result ≡ form_of bank.now one two (Some first) (Some second) }
{
    match (first, second) {
        (
            Node::Pick {
                test: t,
                yes: x,
                no: y,
            },
            Node::Pick {
                test: u,
                yes: p,
                no: q,
            },
        ) => {
            if t.0 == u.0 {
                Form::Split {
                    test: t,
                    yes_one: x,
                    yes_two: p,
                    no_one: y,
                    no_two: q,
                }
            } else if x.0 == p.0 && y.0 == q.0 {
                Form::Either {
                    one: t,
                    two: u,
                    other_one: x,
                    other_two: y,
                }
            } else if t.0 < u.0 {
                Form::Split {
                    test: u,
                    yes_one: one,
                    yes_two: p,
                    no_one: one,
                    no_two: q,
                }
            } else {
                Form::Split {
                    test: t,
                    yes_one: x,
                    yes_two: two,
                    no_one: y,
                    no_two: two,
                }
            }
        }
        (Node::Pick { test, yes, no }, _) => Form::Split {
            test,
            yes_one: yes,
            yes_two: two,
            no_one: no,
            no_two: two,
        },
        (_, Node::Pick { test, yes, no }) => Form::Split {
            test,
            yes_one: one,
            yes_two: yes,
            no_one: one,
            no_two: no,
        },
        _ => against_known(bank, one, two, known(bank, one), known(bank, two)),
    }
}

/// How the equality of two words goes on, where these constants are known of them.
fn against_known(bank: &Bank, one: Id, two: Id, first: Option<Word>, second: Option<Word>) -> Form
    requires bank { IsBank bank.now }
    requires words { WordsAlike bank.now one two }
    requires first { first ≡ known_in (slice_get bank.now one.0) }
    requires second { second ≡ known_in (slice_get bank.now two.0) }
    ensures { result ≡ against_known bank.now one two first second }
{
    match (first, second) {
        (_, Some(word)) => against(bank, one, word),
        (Some(word), None) => against(bank, two, word),
        (None, None) => Form::Plain,
    }
}

/// How the equality of a term with a constant goes on.
fn against(bank: &Bank, at: Id, word: Word) -> Form
    requires bank { IsBank bank.now }
    requires at { HasWidth bank.now at word.width }
    ensures { result ≡ against bank.now at word }
{
    if may_be(bank, at, word) {
        undo_node(bank, at, word)
    } else {
        Form::Never
    }
}

/// How the equality of the node at a place, which may be this constant, with it goes on.
fn undo_node(bank: &Bank, at: Id, word: Word) -> Form
    requires bank { IsBank bank.now }
    requires at { HasWidth bank.now at word.width }
    ensures { result ≡ undo_node bank.now word (slice_get bank.now at.0) }
{
    match bank.node(at) {
        Node::Const(other) => {
            if other.bits == word.bits {
                Form::One
            } else {
                Form::Never
            }
        }
        Node::Bin { op, a, b } => undo_bin(bank, op, a, b, word, known(bank, a), known(bank, b)),
        Node::Not { a } => Form::Against {
            term: a,
            word: not(word),
        },
        Node::Resize { a, width } => undo_resize(bank.width(a), width, a, word),
        Node::Input { .. } | Node::Pick { .. } => Form::Plain,
    }
}

/// How the equality of an operation with a constant goes on, where these constants are known of its operands.
fn undo_bin(
    bank: &Bank,
    op: Op,
    a: Id,
    b: Id,
    word: Word,
    one: Option<Word>,
    two: Option<Word>,
) -> Form
    requires bank { IsBank bank.now }
    requires a { Stands bank.now a }
    requires b { Stands bank.now b }
    requires one { ConstantFits op word one }
    requires two { ConstantFits op word two }
    ensures { result ≡ undo_bin bank.now op a b word one two }
{
    match (one, two) {
        (_, Some(constant)) => undo_first(bank, op, a, word, constant),
        (Some(constant), None) => undo_second(bank, op, b, word, constant),
        (None, None) => Form::Plain,
    }
}

/// How the equality of an operation on a term and a constant with a word goes on.
fn undo_first(bank: &Bank, op: Op, term: Id, word: Word, constant: Word) -> Form
    requires bank { IsBank bank.now }
    requires term { Stands bank.now term }
    requires constant { ConstantFits op word (Some constant) }
    ensures { result ≡ undo_first bank.now op term word constant }
{
    match op {
        Op::Add => Form::Against {
            term,
            word: apply(Op::Sub, word, constant),
        },
        Op::Sub => Form::Against {
            term,
            word: apply(Op::Add, word, constant),
        },
        Op::Mul => undo_product(term, word, constant),
        Op::Or => undo_or(term, word, constant, may_have(bank, term)),
        Op::Xor => Form::Against {
            term,
            word: apply(Op::Xor, word, constant),
        },
        Op::Shl => undo_shift(term, word, constant, may_have(bank, term)),
        _ => Form::Plain,
    }
}

/// How the equality of an operation on a constant and a term with a word goes on.
fn undo_second(bank: &Bank, op: Op, term: Id, word: Word, constant: Word) -> Form
    requires bank { IsBank bank.now }
    requires term { Stands bank.now term }
    requires constant { ConstantFits op word (Some constant) }
    ensures { result ≡ undo_second bank.now op term word constant }
{
    match op {
        Op::Add => Form::Against {
            term,
            word: apply(Op::Sub, word, constant),
        },
        Op::Sub => Form::Against {
            term,
            word: apply(Op::Sub, constant, word),
        },
        Op::Mul => undo_product(term, word, constant),
        Op::Or => undo_or(term, word, constant, may_have(bank, term)),
        Op::Xor => Form::Against {
            term,
            word: apply(Op::Xor, word, constant),
        },
        _ => Form::Plain,
    }
}

/// How the equality of the digits of a term, which may have these, and of a constant together with a word goes on.
/// Where the term has none of the constant's digits, they are taken away from the word.
fn undo_or(term: Id, word: Word, constant: Word, may: Word) -> Form
    requires { constant.width ≡ word.width }
    ensures { result ≡ undo_or term word constant may }
{
    if may.bits & constant.bits == 0 {
        Form::Against {
            term,
            word: apply(Op::Xor, word, constant),
        }
    } else {
        Form::Plain
    }
}

/// How the equality of a term, which may have these digits, moved up as far as the constant says, with a word goes on.
/// Where no digit is moved out and the word has none that moves in, the word is moved down.
fn undo_shift(term: Id, word: Word, constant: Word, may: Word) -> Form
    ensures { result ≡ undo_shift term word constant may }
{
    if comes_back(Op::Shl, Op::Shr, may, constant) && comes_back(Op::Shr, Op::Shl, word, constant) {
        Form::Against {
            term,
            word: apply(Op::Shr, word, constant),
        }
    } else {
        Form::Plain
    }
}

/// Whether a word's digits are what they were once they are moved as far as another word says, this way and back.
fn comes_back(there: Op, back: Op, word: Word, by: Word) -> bool
    requires there { CanApply there word by }
    requires back { CanApply back (apply_to there word by) by }
    ensures { result ≡ comes_back there back word by }
{
    apply(back, apply(there, word, by), by).bits == word.bits
}

/// How the equality of the product of a term and a constant with a word goes on: an odd constant has an inverse modulo 2 to its width.
fn undo_product(term: Id, word: Word, constant: Word) -> Form
    requires { constant.width ≡ word.width }
    ensures { result ≡ undo_product term word constant (inverse_of constant) }
{
    let inverse = inverse_of(constant);
    if apply(Op::Mul, constant, inverse).bits == 1 {
        Form::Against {
            term,
            word: apply(Op::Mul, word, inverse),
        }
    } else {
        Form::Plain
    }
}

/// The inverse of an odd word modulo 2 to its width, by Newton's iteration. Any odd word is its own inverse in the three lowest digits.
fn inverse_of(word: Word) -> Word
    ensures value { result ≡ inverse_of word }
    ensures width { result.width ≡ word.width }
{
    let six = nearer(word, word);
    let twelve = nearer(word, six);
    let twenty_four = nearer(word, twelve);
    let forty_eight = nearer(word, twenty_four);
    nearer(word, forty_eight)
}

/// A step of this iteration, which doubles how many lowest digits are right.
fn nearer(word: Word, inverse: Word) -> Word
    requires { word.width ≡ inverse.width }
    ensures value { result ≡ nearer word inverse }
    ensures width { result.width ≡ inverse.width }
{
    let twice = apply(Op::Add, inverse, inverse);
    let square = apply(Op::Mul, inverse, inverse);
    apply(Op::Sub, twice, apply(Op::Mul, word, square))
}

/// How the equality of a term, which has `digits` digits, at a width with a word goes on.
fn undo_resize(digits: u8, width: u8, term: Id, word: Word) -> Form
    requires { IsWidth digits }
    ensures { result ≡ undo_resize digits width term word }
{
    if width < digits {
        return Form::Plain;
    }
    if fits(digits, word.bits) {
        Form::Against {
            term,
            word: Word {
                width: digits,
                bits: word.bits,
            },
        }
    } else {
        Form::Never
    }
}

/// Whether the number has at most so many binary digits.
pub fn fits(width: u8, number: u64) -> bool
    requires { IsWidth width }
    ensures { result ≡ nat_lt number (2 ^ width) }
{
    let word = Word {
        width: 64,
        bits: number,
    };
    resize(word, width).bits == number
}
