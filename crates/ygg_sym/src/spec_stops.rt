//! A specification whose power fails, as the machine on which a block runs.

use std::alloc::Global;
use ygg_sym_machine::{
    Awaited, Bank, Book, Id, Lows, NoMemory, SymLower, SymStops, SymValue, join_lows,
};
use ygg_sym_spec::{SymPicks, SymSpec, crash, fall};

/// The specification of a layer over terms whose power fails at stops.
#[derive(Clone, Copy)]
pub struct SpecStops<'a> {
    /// The specification.
    pub machine: SymSpec<'a>,
    /// The number of the first stop's input.
    pub stop: u64,
    /// The number of the first input that is a pick of the failure.
    pub last: u64,
}

impl<'a> SymLower for SpecStops<'a> {
    ghost use Rattle.ygg_sym_spec.specs.Machine.{spec_meaning};
    ghost use Rattle.ygg_sym_spec.specs.Meaning.{spec_keeps};

    type State = Lows;

    ghost means = { λ m. spec_meaning m.machine };

    fn space(&self, name: &[u8]) -> Option<u64> {
        self.machine.space(name)
    }

    fn handle<B: Book>(
        &self,
        alloc: Global,
        bank: &mut Bank,
        book: &B,
        place: u64,
        question: Awaited<'_>,
        state: &mut Lows,
    ) -> Result<Option<SymValue>, NoMemory> {
        self.machine
            .handle(alloc, bank, book, place, question, state)
    }

    fn merge<B: Book>(
        &self,
        alloc: Global,
        bank: &mut Bank,
        book: &B,
        test: Id,
        yes: &Lows,
        no: &Lows,
    ) -> Result<Lows, NoMemory> {
        self.machine.merge(alloc, bank, book, test, yes, no)
    }

    ghost keeps = { λ m. spec_keeps m.machine };
}

impl<'a> SymStops for SpecStops<'a> {
    ghost use Rattle.ygg_sym.specs.SpecFailing.{spec_power};
    ghost use Rattle.ygg_sym.specs.SpecFailingKeeps.{spec_keeps_power};

    ghost power = { spec_power };

    fn stop(&self) -> u64 {
        self.stop
    }

    fn cut<B: Book>(
        &self,
        alloc: Global,
        bank: &mut Bank,
        book: &B,
        question: Awaited<'_>,
        state: &Lows,
    ) -> Result<Lows, NoMemory> {
        // the bank's nodes stand in order
        let _ = bank.len();
        let layer = self.machine.layer;
        let picks = SymPicks::Inputs(self.last);
        match question {
            Awaited::Choice => {
                let values = crash(alloc, bank, book, layer, picks, &state.values)?;
                Ok(Lows { values })
            }
            Awaited::Call(name, args) => {
                let values = fall(alloc, bank, book, layer, picks, name, args, &state.values)?;
                Ok(Lows { values })
            }
        }
    }

    fn lose<B: Book>(
        &self,
        alloc: Global,
        bank: &mut Bank,
        book: &B,
        state: &Lows,
    ) -> Result<Lows, NoMemory> {
        // the bank's nodes stand in order
        let _ = bank.len();
        let picks = SymPicks::Inputs(self.last);
        let values = crash(alloc, bank, book, self.machine.layer, picks, &state.values)?;
        Ok(Lows { values })
    }

    fn join<B: Book>(
        &self,
        alloc: Global,
        bank: &mut Bank,
        book: &B,
        test: Id,
        yes: &Lows,
        no: &Lows,
    ) -> Result<Lows, NoMemory> {
        let values = join_lows(alloc, bank, book, test, &yes.values, &no.values)?;
        Ok(Lows { values })
    }

    ghost keeps_power = { spec_keeps_power };
}
