//! The judges: what a rule of each kind answers. Each can be boxed for a rule of its kind.

ghost use Rattle.std.specs.Prelude.{◌≡◌};
ghost use Rattle.ygg_rules.specs.Rows.{row, is_known_as, is_known_ones, other_of};
ghost use Rattle.ygg_rules.specs.declared.rule.RuleKind.TheVariants as kind;

use crate::view::{Act, Rewrite, View};
use ygg_value::{Op, Word, apply, not, resize};

/// Whether the word is known and has this number.
fn is_known_as(known: Option<Word>, bits: u64) -> bool
    ensures { result ≡ is_known_as bits known }
{
    match known {
        Some(word) => word.bits == bits,
        None => false,
    }
}

/// Whether the word is known and all its digits are 1.
fn is_known_ones(known: Option<Word>) -> bool
    ensures { result ≡ is_known_ones known }
{
    match known {
        Some(word) => not(word).bits == 0,
        None => false,
    }
}

/// The other operand, where the first of two qualifies, or else the second.
fn other_of(first: bool, second: bool) -> Rewrite
    ensures { result ≡ other_of first second }
{
    if first {
        Rewrite::Operand(1)
    } else if second {
        Rewrite::Operand(0)
    } else {
        Rewrite::Keep
    }
}

/// A term whose operands are known words is a constant, and a pick on a known test is one of its operands.
pub fn fold(view: &View) -> Rewrite
    ensures { result ≡ row kind.Fold view.now }
{
    match (view.act, view.one.known, view.two) {
        (Act::Bin(op), Some(a), Some(two)) => match two.known {
            Some(b) => Rewrite::Constant(apply(op, a, b)),
            None => Rewrite::Keep,
        },
        (Act::Not, Some(a), _) => Rewrite::Constant(not(a)),
        (Act::Resize, Some(a), _) => Rewrite::Constant(resize(a, view.width)),
        (Act::Pick, Some(test), _) => match test.bits {
            0 => Rewrite::Operand(2),
            1 => Rewrite::Operand(1),
            _ => Rewrite::Keep,
        },
        _ => Rewrite::Keep,
    }
}

/// A conjunction with a known operand of all ones is the other operand.
pub fn and_ones(view: &View) -> Rewrite
    ensures { result ≡ row kind.AndOnes view.now }
{
    match (view.act, view.two) {
        (Act::Bin(Op::And), Some(two)) => {
            other_of(is_known_ones(view.one.known), is_known_ones(two.known))
        }
        _ => Rewrite::Keep,
    }
}

/// A conjunction with a known operand 0 is the constant 0.
pub fn and_zero(view: &View) -> Rewrite
    ensures { result ≡ row kind.AndZero view.now }
{
    match (view.act, view.two) {
        (Act::Bin(Op::And), Some(two)) => {
            if is_known_as(view.one.known, 0) || is_known_as(two.known, 0) {
                Rewrite::Constant(Word {
                    width: view.width,
                    bits: 0,
                })
            } else {
                Rewrite::Keep
            }
        }
        _ => Rewrite::Keep,
    }
}

/// A disjunction with a known operand 0 is the other operand.
pub fn or_zero(view: &View) -> Rewrite
    ensures { result ≡ row kind.OrZero view.now }
{
    match (view.act, view.two) {
        (Act::Bin(Op::Or), Some(two)) => {
            other_of(is_known_as(view.one.known, 0), is_known_as(two.known, 0))
        }
        _ => Rewrite::Keep,
    }
}

/// A sum with a known operand 0 is the other operand.
pub fn add_zero(view: &View) -> Rewrite
    ensures { result ≡ row kind.AddZero view.now }
{
    match (view.act, view.two) {
        (Act::Bin(Op::Add), Some(two)) => {
            other_of(is_known_as(view.one.known, 0), is_known_as(two.known, 0))
        }
        _ => Rewrite::Keep,
    }
}

/// An operand equals itself.
pub fn eq_self(view: &View) -> Rewrite
    ensures { result ≡ row kind.EqSelf view.now }
{
    match (view.act, view.two) {
        (Act::Bin(Op::Eq), Some(two)) if view.one.id == two.id => {
            Rewrite::Constant(Word { width: 1, bits: 1 })
        }
        _ => Rewrite::Keep,
    }
}

/// A pick from one operand, whatever the test, is that operand.
pub fn pick_same(view: &View) -> Rewrite
    ensures { result ≡ row kind.PickSame view.now }
{
    match (view.two, view.three) {
        (Some(yes), Some(no)) if yes.id == no.id => Rewrite::Operand(1),
        _ => Rewrite::Keep,
    }
}
