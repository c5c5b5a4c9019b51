//! Whether names, numbers, types and expressions are the same but for places.

ghost use Rattle.std.specs.Prelude.{◌≡◌, IsTrue, ◌↔◌, map};
ghost use Rattle.ygg_syntax.specs.Bare.{bare, bare_name, bare_number, bare_type};

use crate::lists;
use crate::tree::{Expr, Name, Numeral, Quantifier, TypeText};
use sqlite_items::{Boxed, Items};
use ygg_value::Op;

/// Whether the names are the same.
pub fn name(a: &Name, b: &Name) -> bool
    ensures { IsTrue result ↔ (bare_name a.now ≡ bare_name b.now) }
{
    a.text.as_slice() == b.text.as_slice()
}

/// Whether the types are the same.
pub fn shape(a: &TypeText, b: &TypeText) -> bool
    ensures { IsTrue result ↔ (bare_type a.now ≡ bare_type b.now) }
{
    match (a, b) {
        (TypeText::Word(w), TypeText::Word(x)) => w.value == x.value,
        (TypeText::Row(m, w), TypeText::Row(n, x)) => m.value == n.value && w.value == x.value,
        (TypeText::Table(k, m, w), TypeText::Table(l, n, x)) => {
            k.value == l.value && m.value == n.value && w.value == x.value
        }
        _ => false,
    }
}

/// Whether the numbers are the same.
pub fn number(a: &Numeral, b: &Numeral) -> bool
    ensures { IsTrue result ↔ (bare_number a.now ≡ bare_number b.now) }
{
    a.value == b.value
}

/// Whether the operators are the same.
fn operator(a: Op, b: Op) -> bool
    ensures { IsTrue result ↔ (a ≡ b) }
{
    a == b
}

/// Whether the quantifiers are the same.
fn quantifier(a: Quantifier, b: Quantifier) -> bool
    ensures { IsTrue result ↔ (a ≡ b) }
{
    a == b
}

/// Whether a name, a width and a bound are the same as others.
pub fn range(
    x: &Name,
    width: &Numeral,
    bound: &Numeral,
    y: &Name,
    other_width: &Numeral,
    other_bound: &Numeral,
) -> bool
    ensures { IsTrue result ↔ ((bare_name x.now ≡ bare_name y.now)
        × ((bare_number width.now ≡ bare_number other_width.now) × (bare_number bound.now ≡ bare_number other_bound.now))) }
{
    name(x, y) && number(width, other_width) && number(bound, other_bound)
}

/// Whether two numbers are the same as others.
fn numbers(v: &Numeral, w: &Numeral, u: &Numeral, x: &Numeral) -> bool
    ensures { IsTrue result ↔ ((bare_number v.now ≡ bare_number u.now) × (bare_number w.now ≡ bare_number x.now)) }
{
    number(v, u) && number(w, x)
}

/// Whether a quantifier and the name, the width and the bound of its variable are the same as others.
fn bound(
    q: Quantifier,
    x: &Name,
    width: &Numeral,
    bound: &Numeral,
    p: Quantifier,
    y: &Name,
    other_width: &Numeral,
    other_bound: &Numeral,
) -> bool
    ensures { IsTrue result ↔ ((q ≡ p) × ((bare_name x.now ≡ bare_name y.now)
        × ((bare_number width.now ≡ bare_number other_width.now) × (bare_number bound.now ≡ bare_number other_bound.now)))) }
{
    quantifier(q, p) && range(x, width, bound, y, other_width, other_bound)
}

/// Whether the expressions are the same.
#[cycle(expressions)]
pub fn expression(a: &Expr, b: &Expr) -> bool
    ensures { IsTrue result ↔ (bare a.now ≡ bare b.now) }
{
    match (a, b) {
        (Expr::Constant(v, w), Expr::Constant(u, x)) => numbers(v, w, u, x),
        (Expr::Low(_, x), Expr::Low(_, y)) => name(x, y),
        (Expr::Variable(x), Expr::Variable(y)) => name(x, y),
        (Expr::Apply(f, es), Expr::Apply(g, ds)) => call(f, es, g, ds),
        (Expr::Binary(_, e, o, _, f), Expr::Binary(_, c, p, _, d)) => {
            operator(*o, *p)
                && (expression(lists::expr::get(e), lists::expr::get(c))
                    && expression(lists::expr::get(f), lists::expr::get(d)))
        }
        (Expr::Not(_, e), Expr::Not(_, d)) => expression(lists::expr::get(e), lists::expr::get(d)),
        (Expr::At(e, _, i), Expr::At(d, _, j)) => {
            expression(lists::expr::get(e), lists::expr::get(d))
                && expression(lists::expr::get(i), lists::expr::get(j))
        }
        (Expr::Pick(_, c, e, f), Expr::Pick(_, b, d, g)) => {
            expression(lists::expr::get(c), lists::expr::get(b))
                && (expression(lists::expr::get(e), lists::expr::get(d))
                    && expression(lists::expr::get(f), lists::expr::get(g)))
        }
        (Expr::Resize(_, e, w), Expr::Resize(_, d, x)) => sized(w, e, x, d),
        (Expr::Fill(_, m, e), Expr::Fill(_, n, d)) => sized(m, e, n, d),
        (Expr::Row(_, es), Expr::Row(_, ds)) => expressions(
            lists::expr::as_slice(es),
            lists::expr::as_slice(ds),
        ),
        (Expr::Quantified(_, q, x, w, n, e), Expr::Quantified(_, p, y, v, m, d)) => {
            bound(*q, x, w, n, *p, y, v, m) && expression(lists::expr::get(e), lists::expr::get(d))
        }
        _ => false,
    }
}

/// Whether a number and an expression are the same as others.
#[cycle(expressions)]
fn sized(m: &Numeral, e: &Boxed<Expr>, n: &Numeral, d: &Boxed<Expr>) -> bool
    ensures { IsTrue result ↔ ((bare_number m.now ≡ bare_number n.now) × (bare e.now ≡ bare d.now)) }
{
    number(m, n) && expression(lists::expr::get(e), lists::expr::get(d))
}

/// Whether a name and its arguments are the same as others.
#[cycle(expressions)]
pub fn call(f: &Name, es: &Items<Expr>, g: &Name, ds: &Items<Expr>) -> bool
    ensures { IsTrue result ↔ ((bare_name f.now ≡ bare_name g.now) × (map bare es.now ≡ map bare ds.now)) }
{
    name(f, g) && expressions(lists::expr::as_slice(es), lists::expr::as_slice(ds))
}

/// Whether there are as many expressions, each the same.
#[cycle(expressions)]
pub fn expressions(a: &[Expr], b: &[Expr]) -> bool
    ensures { IsTrue result ↔ (map bare a.now ≡ map bare b.now) }
{
    let mut rest = b;
    for one in a {
        let Some((other, others)) = rest.split_first() else {
            return false;
        };
        if !expression(one, other) {
            return false;
        }
        rest = others;
    }
    rest.is_empty()
}
