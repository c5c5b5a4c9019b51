//! Comparing states, and comparing answers.

ghost use Rattle.std.specs.Prelude.{◌≡◌, IfOk, OnOk};
ghost use Rattle.ygg_sym_spec.specs.ygg_bank.Nodes.{Extends, HasWidth, IsBank};
ghost use Rattle.ygg_sym_spec.specs.ygg_shape_cells.Wholes.{AllAlike};
ghost use Rattle.ygg_sym_spec.specs.ygg_sym_runs.Lower.{KeepsSingle};
ghost use Rattle.ygg_oblige_laws.specs.Outcomes.{answers_compared};
ghost use Rattle.ygg_oblige_laws.specs.TermStates.{all_compared};
ghost use Rattle.ygg_oblige_parts.specs.Digits.{AnswersAlike};

use crate::digits::constant;
use std::alloc::Global;
use ygg_sym_spec::{Bank, Book, Id, NoMemory, SymValue, equal, equal_all};

/// Whether two lists of values are equal, value by value. Its only error is out of memory, after which the bank may have more nodes.
pub fn all_equal<B: Book>(
    alloc: Global,
    bank: &mut Bank,
    book: &B,
    one: &[SymValue],
    two: &[SymValue],
) -> Result<Id, NoMemory>
    requires { AllAlike bank.old one.now two.now }
    ensures nodes { OnOk result (bank.new ≡ (all_compared (B.kinds book.now) one.now two.now bank.old).nodes) }
    ensures id { IfOk result (λ id. id ≡ (all_compared (B.kinds book.now) one.now two.now bank.old).value) }
    ensures width { IfOk result (λ id. HasWidth bank.new id 1) }
    ensures grows { Extends bank.old bank.new }
    ensures single { OnOk result (KeepsSingle bank.old bank.new) }
    ensures bank { IsBank bank.new }
{
    equal_all(alloc, bank, book, one, two)
}

/// Whether two answers are the same. Its only error is out of memory, after which the bank may have more nodes.
pub fn same_answers<B: Book>(
    bank: &mut Bank,
    book: &B,
    one: &Option<SymValue>,
    two: &Option<SymValue>,
) -> Result<Id, NoMemory>
    requires { AnswersAlike bank.old one.now two.now }
    ensures nodes { OnOk result (bank.new ≡ (answers_compared (B.kinds book.now) one.now two.now bank.old).nodes) }
    ensures id { IfOk result (λ id. id ≡ (answers_compared (B.kinds book.now) one.now two.now bank.old).value) }
    ensures width { IfOk result (λ id. HasWidth bank.new id 1) }
    ensures grows { Extends bank.old bank.new }
    ensures single { OnOk result (KeepsSingle bank.old bank.new) }
    ensures bank { IsBank bank.new }
{
    same_answers_by(bank, book, one, two)
}

/// What `same_answers` does.
fn same_answers_by<B: Book>(
    bank: &mut Bank,
    book: &B,
    one: &Option<SymValue>,
    two: &Option<SymValue>,
) -> Result<Id, NoMemory>
    requires { AnswersAlike bank.old one.now two.now }
    ensures nodes { OnOk result (bank.new ≡ (answers_compared (B.kinds book.now) one.now two.now bank.old).nodes) }
    ensures id { IfOk result (λ id. id ≡ (answers_compared (B.kinds book.now) one.now two.now bank.old).value) }
    ensures width { IfOk result (λ id. HasWidth bank.new id 1) }
    ensures grows { Extends bank.old bank.new }
    ensures bank { IsBank bank.new }
{
    match (one, two) {
        (None, None) => constant(bank, book, 1),
        (Some(one), Some(two)) => equal(bank, book, one, two),
        _ => constant(bank, book, 0),
    }
}
