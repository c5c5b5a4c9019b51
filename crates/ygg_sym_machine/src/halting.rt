//! A machine over terms with stops, as the machine on which a block runs.

use crate::stopping::ask_halting;
use crate::stops::SymStops;
use std::alloc::Global;
use std::marker::Model;
use ygg_list::Duplicate;
use ygg_sym_runs::{Awaited, Bank, Book, Id, NoMemory, SymLower, SymValue, pick};

/// A state of a machine with stops.
#[derive(Drop)]
pub struct StopState<S: Drop> {
    /// The machine's own state.
    pub to: S,
    /// What was left when power failed.
    pub fallen: S,
    /// The term that says whether power has failed.
    pub stopped: Id,
}

impl<S: Drop> Model for StopState<S> {
    ghost use Rattle.ygg_sym_runs.specs.StopTerms.{SymHalted};

    ghost Value = { SymHalted S S };

    ghost view = { λ z. record { to = z.to; fallen = z.fallen; stopped = z.stopped } };
}

impl<S: Duplicate + Drop> Duplicate for StopState<S> {
    fn duplicate(&self, alloc: Global) -> Result<StopState<S>, NoMemory> {
        Ok(StopState {
            to: self.to.duplicate(alloc)?,
            fallen: self.fallen.duplicate(alloc)?,
            stopped: self.stopped,
        })
    }
}

/// A machine with stops, as the machine on which a block runs: beside its state stands what the first stop that is set leaves.
#[derive(Clone, Copy)]
pub struct Halting<'a, W> {
    /// The machine.
    pub stops: &'a W,
}

impl<'a, W: SymStops> SymLower for Halting<'a, W> {
    ghost use Rattle.ygg_sym_machine.specs.Halting.{halting_meaning};
    ghost use Rattle.ygg_sym_machine.specs.HaltingKeeps.{halting_keeps};

    type State = StopState<W::State>;

    ghost means = { λ h. halting_meaning (W.means h.stops.now) (W.power h.stops.now) };

    fn space(&self, name: &[u8]) -> Option<u64> {
        self.stops.space(name)
    }

    fn handle<B: Book>(
        &self,
        alloc: Global,
        bank: &mut Bank,
        book: &B,
        place: u64,
        question: Awaited<'_>,
        state: &mut StopState<W::State>,
    ) -> Result<Option<SymValue>, NoMemory> {
        let done = ask_halting(
            self.stops,
            alloc,
            bank,
            book,
            place,
            question,
            &mut state.to,
            &state.fallen,
            state.stopped,
        )?;
        state.fallen = done.fallen;
        state.stopped = done.stopped;
        Ok(done.answer)
    }

    fn merge<B: Book>(
        &self,
        alloc: Global,
        bank: &mut Bank,
        book: &B,
        test: Id,
        yes: &StopState<W::State>,
        no: &StopState<W::State>,
    ) -> Result<StopState<W::State>, NoMemory> {
        // the bank's nodes stand in order
        let _ = bank.len();
        let to = self.stops.merge(alloc, bank, book, test, &yes.to, &no.to)?;
        let fallen = self
            .stops
            .join(alloc, bank, book, test, &yes.fallen, &no.fallen)?;
        let stopped = pick(bank, book, test, yes.stopped, no.stopped)?;
        Ok(StopState {
            to,
            fallen,
            stopped,
        })
    }

    ghost keeps = { λ h. halting_keeps (W.means h.stops.now) (W.power h.stops.now) (W.keeps h.stops.now) (W.keeps_power h.stops.now) };
}
