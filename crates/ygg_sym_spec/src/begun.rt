//! A specification's variables at its start.

ghost use Rattle.std.specs.Prelude.{◌≡◌, IfOk, OnOk};
ghost use Rattle.ygg_sym_spec.specs.ygg_bank.Nodes.{Extends, IsBank};
ghost use Rattle.ygg_sym_runs.specs.Lows.{LowShaped};
ghost use Rattle.ygg_sym_spec.specs.ygg_sym_runs.Lower.{KeepsSingle, SingleFrom};
ghost use Rattle.ygg_sym_runs.specs.Below.{start_made};
ghost use Rattle.ygg_sym_spec.specs.Layers.{SpecServes, closed, terms_in};

use crate::blocks::block;
use crate::declared::zeros;
use crate::layer::SymLayer;
use crate::picks::SymPicks;
use std::alloc::Global;
use ygg_sym_runs::{Bank, Book, NoMemory, SymValues};
use ygg_syntax::lists;

/// The variables of a specification at its start. Inputs of the bank from the given number on are single digits. Its only error is out of memory,
/// after which the bank may have more nodes.
pub fn start<B: Book>(
    alloc: Global,
    bank: &mut Bank,
    book: &B,
    layer: SymLayer<'_>,
    first: u64,
) -> Result<SymValues, NoMemory>
    requires serves { SpecServes layer }
    requires single { SingleFrom first bank.old }
    ensures nodes { OnOk result (bank.new ≡ (start_made (B.kinds book.now) (terms_in (B.kinds book.now) layer.entry) (closed layer.entry) bank.old).nodes) }
    ensures form { IfOk result (λ xs. xs ≡ (start_made (B.kinds book.now) (terms_in (B.kinds book.now) layer.entry) (closed layer.entry) bank.old).value) }
    ensures shape { IfOk result (LowShaped bank.new (layer.entry.layer.now).state) }
    ensures grows { Extends bank.old bank.new }
    ensures single { OnOk result (KeepsSingle bank.old bank.new) }
    ensures bank { IsBank bank.new }
{
    let zeros = zeros(
        alloc,
        bank,
        book,
        lists::declared::as_slice(&layer.layer.state),
    )?;
    let picks = SymPicks::Given(&[], first);
    let done = block(
        alloc,
        bank,
        book,
        layer,
        picks,
        &layer.layer.start,
        &zeros,
        &[],
        &[],
    )?;
    Ok(done.vars)
}
