//! States of a machine below: values of terms for declared names.

ghost use Rattle.std.specs.Prelude.{◌≡◌, IfOk, List, OnOk};
ghost use Rattle.ygg_syntax.specs.declared.tree.Declared.{Declared};
ghost use Rattle.ygg_sym_runs.specs.ygg_bank.Inputs.{KeepsInputs};
ghost use Rattle.ygg_sym_runs.specs.ygg_bank.Nodes.{Extends, HasWidth, IsBank};
ghost use Rattle.ygg_sym_runs.specs.ygg_shape.Wholes.{AllAlike};
ghost use Rattle.ygg_sym_runs.specs.Lows.{LowShaped, join_lows, merge_lows};

use crate::{Bank, Book, Id, NoMemory, SymValues, merge_all};
use std::alloc::Global;
use std::marker::Model;
use ygg_list::Duplicate;
use ygg_shape_joins::join_all;

/// A state of a machine below, which contracts see as its values.
#[derive(Drop)]
pub struct Lows {
    /// The values, in the order of the declared names.
    pub values: SymValues,
}

impl Model for Lows {
    ghost use Rattle.std.specs.Prelude.{List};
    ghost use Rattle.ygg_sym_runs.specs.ygg_shape_cells.declared.terms.SymValue.{SymValue};

    ghost Value = { List SymValue };

    ghost view = { λ lows. lows.values };
}

impl Duplicate for Lows {
    fn duplicate(&self, alloc: Global) -> Result<Lows, NoMemory> {
        Ok(Lows {
            values: self.values.copy(alloc)?,
        })
    }
}

/// The state that is `yes` where the test is 1, and `no` where it is 0, value by value. Its only error is out of memory, after which the bank may
/// have more nodes.
pub fn merge_lows<B: Book>(
    alloc: Global,
    bank: &mut Bank,
    book: &B,
    test: Id,
    yes: &SymValues,
    no: &SymValues,
) -> Result<SymValues, NoMemory>
    requires test { HasWidth bank.old test 1 }
    requires values { AllAlike bank.old yes.now no.now }
    ensures nodes { OnOk result (bank.new ≡ (merge_lows (B.kinds book.now) test yes.now no.now bank.old).nodes) }
    ensures form { IfOk result (λ answers. answers ≡ (merge_lows (B.kinds book.now) test yes.now no.now bank.old).value) }
    ensures shape { (names : List Declared) → LowShaped bank.old names yes.now → LowShaped bank.old names no.now →
        IfOk result (LowShaped bank.new names) }
    ensures grows { Extends bank.old bank.new }
    ensures bank { IsBank bank.new }
    ensures inputs { OnOk result (KeepsInputs bank.old bank.new) }
{
    merge_all(alloc, bank, book, test, yes, no)
}

/// The state that is `yes` where the test is 1, and `no` where it is 0, value by value, where picks of one word under
/// two tests are one pick. Its only error is out of memory, after which the bank may
/// have more nodes.
pub fn join_lows<B: Book>(
    alloc: Global,
    bank: &mut Bank,
    book: &B,
    test: Id,
    yes: &SymValues,
    no: &SymValues,
) -> Result<SymValues, NoMemory>
    requires test { HasWidth bank.old test 1 }
    requires values { AllAlike bank.old yes.now no.now }
    ensures nodes { OnOk result (bank.new ≡ (join_lows (B.kinds book.now) test yes.now no.now bank.old).nodes) }
    ensures form { IfOk result (λ answers. answers ≡ (join_lows (B.kinds book.now) test yes.now no.now bank.old).value) }
    ensures shape { (names : List Declared) → LowShaped bank.old names yes.now → LowShaped bank.old names no.now →
        IfOk result (LowShaped bank.new names) }
    ensures grows { Extends bank.old bank.new }
    ensures bank { IsBank bank.new }
    ensures inputs { OnOk result (KeepsInputs bank.old bank.new) }
{
    join_all(alloc, bank, book, test, yes, no)
}
