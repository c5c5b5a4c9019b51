//! The specification of a layer as the machine on which a block runs.

ghost use Rattle.std.specs.Prelude.{◌≡◌, IfOk, OnOk};
ghost use Rattle.ygg_sym_runs.specs.ygg_bank.Nodes.{Extends, IsBank};
ghost use Rattle.ygg_sym_runs.specs.Lower.{KeepsSingle};
ghost use Rattle.ygg_sym_runs.specs.Runs.{Call};
ghost use Rattle.ygg_sym_runs.specs.Disks.{done};
ghost use Rattle.ygg_sym_spec.specs.Layers.{CanCut};
ghost use Rattle.ygg_sym_spec.specs.Machine.{call_of};

use crate::blocks::{block, choices};
use crate::layer::{SymLayer, operation_of};
use crate::picks::SymPicks;
use std::alloc::Global;
use ygg_sym_runs::low_states::{Lows, merge_lows};
use ygg_sym_runs::{Awaited, Bank, Book, Id, NoMemory, SymLower, SymValue};
use ygg_syntax::lists;

/// The specification of a layer over terms, whose picks are inputs of the bank: of each place the one whose number is so much above the first.
#[derive(Clone, Copy)]
pub struct SymSpec<'a> {
    /// The layer.
    pub layer: SymLayer<'a>,
    /// The number of the first place's pick.
    pub first: u64,
}

impl<'a> SymLower for SymSpec<'a> {
    ghost use Rattle.ygg_sym_spec.specs.Machine.{spec_meaning};
    ghost use Rattle.ygg_sym_spec.specs.Meaning.{spec_keeps};

    type State = Lows;

    ghost means = { spec_meaning };

    fn space(&self, name: &[u8]) -> Option<u64> {
        match operation_of(
            lists::operation::as_slice(&self.layer.layer.operations),
            name,
        ) {
            Some(operation) => match choices(&operation.spec) {
                Some(count) => count.checked_add(1),
                None => None,
            },
            None => Some(1),
        }
    }

    fn handle<B: Book>(
        &self,
        alloc: Global,
        bank: &mut Bank,
        book: &B,
        place: u64,
        question: Awaited<'_>,
        state: &mut Lows,
    ) -> Result<Option<SymValue>, NoMemory> {
        // the bank's nodes stand in order
        let _ = bank.len();
        match question {
            Awaited::Choice => Ok(None),
            Awaited::Call(name, args) => match self.first.checked_add(place) {
                Some(first) => call(alloc, bank, book, self.layer, first, name, args, state),
                None => Err(NoMemory),
            },
        }
    }

    fn merge<B: Book>(
        &self,
        alloc: Global,
        bank: &mut Bank,
        book: &B,
        test: Id,
        yes: &Lows,
        no: &Lows,
    ) -> Result<Lows, NoMemory> {
        let values = merge_lows(alloc, bank, book, test, &yes.values, &no.values)?;
        Ok(Lows { values })
    }

    ghost keeps = { spec_keeps };
}

/// What the specification does with a call, whose picks have the inputs from a number on.
fn call<B: Book>(
    alloc: Global,
    bank: &mut Bank,
    book: &B,
    layer: SymLayer<'_>,
    first: u64,
    name: &[u8],
    args: &[SymValue],
    state: &mut Lows,
) -> Result<Option<SymValue>, NoMemory>
    requires can { CanCut layer (SymPicks.Inputs first) bank.old name.now state.old args.now }
    ensures nodes { OnOk result (bank.new ≡ (call_of (B.kinds book.now) layer.entry first name.now args.now state.old bank.old).nodes) }
    ensures form { IfOk result (λ answer. done answer state.new ≡ (call_of (B.kinds book.now) layer.entry first name.now args.now state.old bank.old).value) }
    ensures grows { Extends bank.old bank.new }
    ensures single { OnOk result (KeepsSingle bank.old bank.new) }
    ensures bank { IsBank bank.new }
{
    // the bank's nodes stand in order
    let _ = bank.len();
    match operation_of(lists::operation::as_slice(&layer.layer.operations), name) {
        Some(operation) => {
            let picks = SymPicks::Inputs(first);
            let done = block(
                alloc,
                bank,
                book,
                layer,
                picks,
                &operation.spec,
                &state.values,
                lists::declared::as_slice(&operation.arguments),
                args,
            )?;
            state.values = done.vars;
            Ok(done.answer)
        }
        None => Ok(None),
    }
}
