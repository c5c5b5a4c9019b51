//! Power that fails on a specification over terms.

ghost use Rattle.std.specs.Prelude.{◌≡◌, IfOk, None, OnOk};
ghost use Rattle.ygg_sym_runs.specs.ygg_bank.Nodes.{Extends, IsBank};
ghost use Rattle.ygg_sym_runs.specs.Lower.{KeepsSingle};
ghost use Rattle.ygg_sym_runs.specs.Lows.{LowShaped};
ghost use Rattle.ygg_sym_runs.specs.SpecCuts.{fall_made};
ghost use Rattle.ygg_sym_spec.specs.Layers.{CanCut, CanFall, closed, cut_of, fall_of, terms_in};
ghost use Rattle.ygg_sym_spec.specs.Picking.{picking};

use crate::blocks::{crash, then_crash};
use crate::layer::{SymLayer, operation_of};
use crate::picks::SymPicks;
use std::alloc::Global;
use ygg_sym_runs::low_states::merge_lows;
use ygg_sym_runs::{Bank, Book, NoMemory, SymValue, SymValues};
use ygg_syntax::lists;
use ygg_syntax::tree::Operation;

/// What power leaves that fails within an operation of this name: what is none leaves the variables. Its only error is out of memory, after which
/// the bank may have more nodes.
pub fn fall<B: Book>(
    alloc: Global,
    bank: &mut Bank,
    book: &B,
    layer: SymLayer<'_>,
    picks: SymPicks<'_>,
    name: &[u8],
    args: &[SymValue],
    vars: &SymValues,
) -> Result<SymValues, NoMemory>
    requires can { CanCut layer picks bank.old name.now vars.now args.now }
    ensures nodes { OnOk result (bank.new ≡ (fall_of (B.kinds book.now) layer.entry picks.entry name.now args.now vars.now bank.old).nodes) }
    ensures form { IfOk result (λ left. left ≡ (fall_of (B.kinds book.now) layer.entry picks.entry name.now args.now vars.now bank.old).value) }
    ensures shape { IfOk result (LowShaped bank.new (layer.entry.layer.now).state) }
    ensures grows { Extends bank.old bank.new }
    ensures single { OnOk result (KeepsSingle bank.old bank.new) }
    ensures bank { IsBank bank.new }
{
    // the bank's nodes stand in order
    let _ = bank.len();
    match operation_of(lists::operation::as_slice(&layer.layer.operations), name) {
        Some(operation) => cut(alloc, bank, book, layer, picks, operation, args, vars),
        None => vars.copy(alloc),
    }
}

/// What power leaves that fails within an operation: its own block for that, or what the operation leaves wholly or not at all.
fn cut<'a, B: Book>(
    alloc: Global,
    bank: &mut Bank,
    book: &B,
    layer: SymLayer<'a>,
    picks: SymPicks<'_>,
    operation: &'a Operation,
    args: &[SymValue],
    vars: &SymValues,
) -> Result<SymValues, NoMemory>
    requires can { CanFall layer picks bank.old operation.now vars.now args.now }
    ensures nodes { OnOk result (bank.new ≡ (cut_of (B.kinds book.now) layer.entry picks.entry operation.now args.now vars.now bank.old).nodes) }
    ensures form { IfOk result (λ left. left ≡ (cut_of (B.kinds book.now) layer.entry picks.entry operation.now args.now vars.now bank.old).value) }
    ensures shape { IfOk result (LowShaped bank.new (layer.entry.layer.now).state) }
    ensures grows { Extends bank.old bank.new }
    ensures single { OnOk result (KeepsSingle bank.old bank.new) }
    ensures bank { IsBank bank.new }
{
    match &operation.on_crash {
        Some(b) => then_crash(
            alloc,
            bank,
            book,
            layer,
            picks,
            b,
            vars,
            lists::declared::as_slice(&operation.arguments),
            args,
        ),
        None => wholly_or_not(alloc, bank, book, layer, picks, operation, args, vars),
    }
}

/// What an operation leaves where a pick is 1, and else what was there, and then the `crash` block.
fn wholly_or_not<'a, B: Book>(
    alloc: Global,
    bank: &mut Bank,
    book: &B,
    layer: SymLayer<'a>,
    picks: SymPicks<'_>,
    operation: &'a Operation,
    args: &[SymValue],
    vars: &SymValues,
) -> Result<SymValues, NoMemory>
    requires can { CanFall layer picks bank.old operation.now vars.now args.now }
    ensures nodes { OnOk result (bank.new ≡ (fall_made (B.kinds book.now) (terms_in (B.kinds book.now) layer.entry) (closed layer.entry)
        (picking (B.kinds book.now) picks.entry) operation.now None vars.now args.now bank.old).nodes) }
    ensures form { IfOk result (λ left. left ≡ (fall_made (B.kinds book.now) (terms_in (B.kinds book.now) layer.entry) (closed layer.entry)
        (picking (B.kinds book.now) picks.entry) operation.now None vars.now args.now bank.old).value) }
    ensures shape { IfOk result (LowShaped bank.new (layer.entry.layer.now).state) }
    ensures grows { Extends bank.old bank.new }
    ensures single { OnOk result (KeepsSingle bank.old bank.new) }
    ensures bank { IsBank bank.new }
{
    let happened = picks.make(bank, book, 0)?;
    let later = picks.after(1)?;
    let all = then_crash(
        alloc,
        bank,
        book,
        layer,
        later,
        &operation.spec,
        vars,
        lists::declared::as_slice(&operation.arguments),
        args,
    )?;
    let nothing = crash(alloc, bank, book, layer, later, vars)?;
    merge_lows(alloc, bank, book, happened, &all, &nothing)
}
