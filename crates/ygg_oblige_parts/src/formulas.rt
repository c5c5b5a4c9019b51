//! Formulas over terms, of which each is a single digit.

ghost use Rattle.std.specs.Prelude.{◌≡◌, IfOk, OnOk, All};
ghost use Rattle.ygg_sym_spec.specs.ygg_bank.Nodes.{Extends, HasWidth, IsBank};
ghost use Rattle.ygg_sym_spec.specs.ygg_sym_runs.Seen.{known_of, terms_in};
ghost use Rattle.ygg_sym_spec.specs.ygg_sym_runs.Exprs.{id_in};
ghost use Rattle.ygg_oblige_parts.specs.Digits.{IsDigit};
ghost use Rattle.ygg_oblige_parts.specs.Formulas.{CanTest, digits_made, truths_in};

use crate::digits::all;
use std::alloc::Global;
use ygg_sym_spec::{Bank, Book, Id, NoMemory, SymEvaluator, id_in};
use ygg_syntax::tree::Expr;

/// The digit of a formula.
pub fn digit<'a, B: Book>(
    bank: &mut Bank,
    book: &B,
    evaluator: &SymEvaluator<'a, '_>,
    e: &'a Expr,
) -> Result<Id, NoMemory>
    requires { CanTest (known_of evaluator.now) bank.old e.now }
    ensures nodes { OnOk result (bank.new ≡ (terms_in (B.kinds book.now) (known_of evaluator.now) e.now bank.old).nodes) }
    ensures form { IfOk result (λ id. id ≡ id_in (terms_in (B.kinds book.now) (known_of evaluator.now) e.now bank.old).value) }
    ensures width { IfOk result (λ id. HasWidth bank.new id 1) }
    ensures grows { Extends bank.old bank.new }
    ensures bank { IsBank bank.new }
{
    let value = evaluator.value(bank, book, e)?;
    Ok(id_in(&value))
}

/// The digits of formulas, in order.
fn digits<'a, B: Book>(
    alloc: Global,
    bank: &mut Bank,
    book: &B,
    evaluator: &SymEvaluator<'a, '_>,
    es: &'a [Expr],
) -> Result<Vec<Id>, NoMemory>
    requires bank { IsBank bank.old }
    requires tests { All (CanTest (known_of evaluator.now) bank.old) es.now }
    ensures nodes { OnOk result (bank.new ≡ (digits_made (B.kinds book.now) (known_of evaluator.now) es.now bank.old).nodes) }
    ensures form { IfOk result (λ ids. ids.items ≡ (digits_made (B.kinds book.now) (known_of evaluator.now) es.now bank.old).value) }
    ensures digits { IfOk result (λ ids. All (IsDigit bank.new) ids.items) }
    ensures grows { Extends bank.old bank.new }
    ensures bank { IsBank bank.new }
{
    let mut ids = Vec::new(alloc);
    for e in es {
        let id = digit(bank, book, evaluator, e)?;
        ids.push(id)?;
    }
    Ok(ids)
}

/// Whether all of these formulas are 1. Its only error is out of memory, after which the bank may have more nodes.
pub fn truths<'a, B: Book>(
    alloc: Global,
    bank: &mut Bank,
    book: &B,
    evaluator: &SymEvaluator<'a, '_>,
    es: &'a [Expr],
) -> Result<Id, NoMemory>
    requires bank { IsBank bank.old }
    requires tests { All (CanTest (known_of evaluator.now) bank.old) es.now }
    ensures nodes { OnOk result (bank.new ≡ (truths_in (B.kinds book.now) (known_of evaluator.now) es.now bank.old).nodes) }
    ensures id { IfOk result (λ id. id ≡ (truths_in (B.kinds book.now) (known_of evaluator.now) es.now bank.old).value) }
    ensures width { IfOk result (λ id. HasWidth bank.new id 1) }
    ensures grows { Extends bank.old bank.new }
    ensures bank { IsBank bank.new }
{
    let ids = digits(alloc, bank, book, evaluator, es)?;
    all(bank, book, ids.as_slice())
}
