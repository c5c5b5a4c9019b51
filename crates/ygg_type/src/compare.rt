//! What comparing two shapes gives: the reason of a type error, if there is one.

ghost use Rattle.std.specs.Prelude.{◌≡◌};
ghost use Rattle.ygg_type_rules.specs.Comparisons.{wanted_error, arithmetic_error, shift_error, implication_error, operator_error, operator_shape};
ghost use Rattle.ygg_type_rules.specs.Expressions.{row_word_error};

use crate::shapes::{is_word, same, width};
use ygg_base::Reason;
use ygg_value::{Op, Shape};

/// A shape where another is wanted.
pub fn mismatch(shape: Shape, wanted: Shape) -> Option<Reason>
    ensures { result ≡ wanted_error shape wanted }
{
    if same(shape, wanted) {
        None
    } else if is_word(shape) && is_word(wanted) {
        Some(Reason::Width)
    } else {
        Some(Reason::Shape)
    }
}

/// The operands of a shift.
fn shift(a: Shape, b: Shape) -> Option<Reason>
    ensures { result ≡ shift_error a b }
{
    if is_word(a) && is_word(b) {
        None
    } else {
        Some(Reason::Shape)
    }
}

/// The operands of `=>`.
fn implication(a: Shape, b: Shape) -> Option<Reason>
    ensures { result ≡ implication_error a b }
{
    if !(is_word(a) && is_word(b)) {
        Some(Reason::Shape)
    } else if width(a) == 1 && width(b) == 1 {
        None
    } else {
        Some(Reason::Width)
    }
}

/// The operands of arithmetic, of an operation on digits, or of an order.
fn arithmetic(a: Shape, b: Shape) -> Option<Reason>
    ensures { result ≡ arithmetic_error a b }
{
    if !(is_word(a) && is_word(b)) {
        Some(Reason::Shape)
    } else if width(a) == width(b) {
        None
    } else {
        Some(Reason::Width)
    }
}

/// The operands of an operator.
pub fn operands(op: Op, a: Shape, b: Shape) -> Option<Reason>
    ensures { result ≡ operator_error op a b }
{
    match op {
        Op::Eq | Op::Ne => mismatch(a, b),
        Op::Shl | Op::Shr => shift(a, b),
        Op::Imp => implication(a, b),
        _ => arithmetic(a, b),
    }
}

/// The shape of an operator's result, where its first operand has this shape.
pub fn result_shape(op: Op, a: Shape) -> Shape
    ensures { result ≡ operator_shape op a }
{
    match op {
        Op::Eq | Op::Ne | Op::Lt | Op::Le | Op::Gt | Op::Ge | Op::Imp => Shape::Word { width: 1 },
        _ => a,
    }
}

/// A word of a row whose first part has that shape.
pub fn row_word(first: Shape, shape: Shape) -> Option<Reason>
    ensures { result ≡ row_word_error first shape }
{
    if !is_word(shape) {
        Some(Reason::Shape)
    } else if is_word(first) {
        mismatch(shape, first)
    } else {
        None
    }
}
