//! Operations on one term twice, or on a term and a known word: 0, 1, or all ones.

ghost use Rattle.std.specs.Prelude.{◌≡◌};
ghost use Rattle.ygg_shape_words.specs.ygg_rules.Views.{IsWidth};
ghost use Rattle.ygg_shape_nodes.specs.Surely.{always, known_first, known_second, never, none_of, one_first, one_second, ones_first, ones_second};
ghost use Rattle.ygg_shape_nodes.specs.Surely.{twice, twice_at, zero_first, zero_second};

use crate::rules::Instead;
use ygg_shape_words::{Id, Node};
use ygg_value::{Op, Word, not};

/// The digit 1.
fn always() -> Instead
    ensures { result ≡ always }
{
    Instead::Constant(Word { width: 1, bits: 1 })
}

/// The digit 0.
fn never() -> Instead
    ensures { result ≡ never }
{
    Instead::Constant(Word { width: 1, bits: 0 })
}

/// The number 0 at a width.
fn none_of(width: u8) -> Instead
    requires { IsWidth width }
    ensures { result ≡ none_of width }
{
    Instead::Constant(Word { width, bits: 0 })
}

/// What is made in the stead of an operation on one term twice.
fn twice(op: Op, width: u8, a: Id) -> Instead
    requires { IsWidth width }
    ensures { result ≡ twice op width a }
{
    match op {
        Op::And | Op::Or => Instead::Term(a),
        Op::Sub | Op::Xor => none_of(width),
        Op::Le | Op::Ge | Op::Imp => always(),
        Op::Lt | Op::Gt => never(),
        _ => Instead::Itself,
    }
}

/// What is made in the stead of an operation on a term and another, where these are one.
pub fn twice_at(same: bool, op: Op, width: u8, a: Id) -> Instead
    requires { IsWidth width }
    ensures { result ≡ twice_at same op width a }
{
    if same {
        twice(op, width, a)
    } else {
        Instead::Itself
    }
}

/// What is made in the stead of an operation on 0 and a term.
fn zero_first(op: Op, a: Id, b: Id) -> Instead
    ensures { result ≡ zero_first op a b }
{
    match op {
        Op::Imp | Op::Le => always(),
        Op::Gt => never(),
        Op::Xor => Instead::Term(b),
        Op::Mul | Op::Shl | Op::Shr => Instead::Term(a),
        _ => Instead::Itself,
    }
}

/// What is made in the stead of an operation on all ones and a term.
fn ones_first(op: Op, b: Id) -> Instead
    ensures { result ≡ ones_first op b }
{
    match op {
        Op::Imp => Instead::Term(b),
        Op::Ge => always(),
        Op::Lt => never(),
        _ => Instead::Itself,
    }
}

/// What is made in the stead of an operation on 1 and a term.
fn one_first(op: Op, b: Id) -> Instead
    ensures { result ≡ one_first op b }
{
    match op {
        Op::Mul => Instead::Term(b),
        _ => Instead::Itself,
    }
}

/// What is made in the stead of an operation on a term and 0.
fn zero_second(op: Op, a: Id, b: Id) -> Instead
    ensures { result ≡ zero_second op a b }
{
    match op {
        Op::Imp => Instead::Other(Node::Not { a }),
        Op::Ge => always(),
        Op::Lt => never(),
        Op::Sub | Op::Xor | Op::Shl | Op::Shr => Instead::Term(a),
        Op::Mul => Instead::Term(b),
        _ => Instead::Itself,
    }
}

/// What is made in the stead of an operation on a term and all ones.
fn ones_second(op: Op) -> Instead
    ensures { result ≡ ones_second op }
{
    match op {
        Op::Imp | Op::Le => always(),
        Op::Gt => never(),
        _ => Instead::Itself,
    }
}

/// What is made in the stead of an operation on a term and 1.
fn one_second(op: Op, a: Id) -> Instead
    ensures { result ≡ one_second op a }
{
    match op {
        Op::Mul => Instead::Term(a),
        _ => Instead::Itself,
    }
}

/// What is made in the stead of an operation on a term, of which this is known, and another.
pub fn known_first(op: Op, a: Id, b: Id, first: Option<Word>) -> Instead
    ensures { result ≡ known_first op a b first }
{
    match first {
        Some(word) => {
            if word.bits == 0 {
                zero_first(op, a, b)
            } else if not(word).bits == 0 {
                ones_first(op, b)
            } else if word.bits == 1 {
                one_first(op, b)
            } else {
                Instead::Itself
            }
        }
        None => Instead::Itself,
    }
}

/// What is made in the stead of an operation on a term and another, of which this is known.
pub fn known_second(op: Op, a: Id, b: Id, second: Option<Word>) -> Instead
    ensures { result ≡ known_second op a b second }
{
    match second {
        Some(word) => {
            if word.bits == 0 {
                zero_second(op, a, b)
            } else if not(word).bits == 0 {
                ones_second(op)
            } else if word.bits == 1 {
                one_second(op, a)
            } else {
                Instead::Itself
            }
        }
        None => Instead::Itself,
    }
}
