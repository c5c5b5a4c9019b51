//! Values of terms for declared names.

ghost use Rattle.std.specs.Prelude.{◌≡◌, IfOk, OnOk};
ghost use Rattle.ygg_sym_spec.specs.ygg_bank.Nodes.{Extends, IsBank};
ghost use Rattle.ygg_sym_runs.specs.Lows.{LowShaped};
ghost use Rattle.ygg_sym_spec.specs.ygg_sym_runs.Lower.{KeepsSingle};
ghost use Rattle.ygg_sym_runs.specs.Below.{zeros_made};
ghost use Rattle.ygg_sym_spec.specs.Kept.{AreKept};

use std::alloc::Global;
use ygg_sym_runs::{Bank, Book, NoMemory, SymValues, shape_of, zero};
use ygg_syntax::tree::Declared;

/// Zeros for declared names, in order. Its only error is out of memory, after which the bank may have more nodes.
pub fn zeros<B: Book>(
    alloc: Global,
    bank: &mut Bank,
    book: &B,
    declared: &[Declared],
) -> Result<SymValues, NoMemory>
    requires { AreKept declared.now }
    ensures nodes { OnOk result (bank.new ≡ (zeros_made (B.kinds book.now) declared.now bank.old).nodes) }
    ensures form { IfOk result (λ xs. xs ≡ (zeros_made (B.kinds book.now) declared.now bank.old).value) }
    ensures shape { IfOk result (LowShaped bank.new declared.now) }
    ensures grows { Extends bank.old bank.new }
    ensures single { OnOk result (KeepsSingle bank.old bank.new) }
    ensures bank { IsBank bank.new }
{
    // the bank's nodes stand in order
    let _ = bank.len();
    zeros_by(alloc, bank, book, declared)
}

/// What `zeros` does.
fn zeros_by<B: Book>(
    alloc: Global,
    bank: &mut Bank,
    book: &B,
    declared: &[Declared],
) -> Result<SymValues, NoMemory>
    requires bank { IsBank bank.old }
    requires kept { AreKept declared.now }
    ensures nodes { OnOk result (bank.new ≡ (zeros_made (B.kinds book.now) declared.now bank.old).nodes) }
    ensures form { IfOk result (λ xs. xs ≡ (zeros_made (B.kinds book.now) declared.now bank.old).value) }
    ensures grows { Extends bank.old bank.new }
    ensures bank { IsBank bank.new }
{
    let mut values = SymValues::new(alloc);
    for variable in declared {
        let value = zero(alloc, bank, book, shape_of(variable.shape))?;
        values.push(value)?;
    }
    Ok(values)
}
