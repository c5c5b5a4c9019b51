//! Where expressions begin, and which of them join others.

ghost use Rattle.std.specs.Prelude.{◌≡◌};
ghost use Rattle.ygg_explain.specs.Parts.{IsComparison, IsConjunction, compares, is_and, place_of};

use ygg_syntax::lists;
use ygg_syntax::tree::{Expr, Place};
use ygg_value::Op;

/// Where an expression begins: at its first token.
pub fn place_of(e: &Expr) -> Place
    ensures { result ≡ place_of e.now }
{
    match e {
        Expr::Constant(value, _) => value.place,
        Expr::Low(place, _) => *place,
        Expr::Variable(name) => name.place,
        Expr::Apply(name, _) => name.place,
        Expr::Binary(place, _, _, _, _) => *place,
        Expr::Not(place, _) => *place,
        Expr::At(whole, _, _) => place_of(lists::expr::get(whole)),
        Expr::Pick(place, _, _, _) => *place,
        Expr::Resize(place, _, _) => *place,
        Expr::Fill(place, _, _) => *place,
        Expr::Row(place, _) => *place,
        Expr::Quantified(place, _, _, _, _, _) => *place,
    }
}

/// Whether an operation is `&`.
fn is_and(op: Op) -> bool
    ensures { result ≡ is_and op }
{
    match op {
        Op::And => true,
        _ => false,
    }
}

/// Whether an operation compares two values.
fn compares(op: Op) -> bool
    ensures { result ≡ compares op }
{
    match op {
        Op::Eq | Op::Ne | Op::Lt | Op::Le | Op::Gt | Op::Ge => true,
        _ => false,
    }
}

/// The two sides of an expression that is `(A & B)`.
pub fn conjunction(e: &Expr) -> Option<(&Expr, &Expr)>
    ensures { IsConjunction e.now result }
{
    match e {
        Expr::Binary(_, a, op, _, b) => {
            if is_and(*op) {
                Some((lists::expr::get(a), lists::expr::get(b)))
            } else {
                None
            }
        }
        Expr::Constant(_, _) => None,
        Expr::Low(_, _) => None,
        Expr::Variable(_) => None,
        Expr::Apply(_, _) => None,
        Expr::Not(_, _) => None,
        Expr::At(_, _, _) => None,
        Expr::Pick(_, _, _, _) => None,
        Expr::Resize(_, _, _) => None,
        Expr::Fill(_, _, _) => None,
        Expr::Row(_, _) => None,
        Expr::Quantified(_, _, _, _, _, _) => None,
    }
}

/// The two sides of an expression that compares two values.
pub fn comparison(e: &Expr) -> Option<(&Expr, &Expr)>
    ensures { IsComparison e.now result }
{
    match e {
        Expr::Binary(_, a, op, _, b) => {
            if compares(*op) {
                Some((lists::expr::get(a), lists::expr::get(b)))
            } else {
                None
            }
        }
        Expr::Constant(_, _) => None,
        Expr::Low(_, _) => None,
        Expr::Variable(_) => None,
        Expr::Apply(_, _) => None,
        Expr::Not(_, _) => None,
        Expr::At(_, _, _) => None,
        Expr::Pick(_, _, _, _) => None,
        Expr::Resize(_, _, _) => None,
        Expr::Fill(_, _, _) => None,
        Expr::Row(_, _) => None,
        Expr::Quantified(_, _, _, _, _, _) => None,
    }
}
