//! A disk whose power fails, as the machine on which a block runs.

use std::alloc::Global;
use ygg_sym_machine::{Awaited, Lows, SymDisk, SymStops, cut, join_lows, lose};
use ygg_sym_spec::{Bank, Book, Id, NoMemory, SymLower, SymValue};

/// A disk over terms whose power fails at stops.
#[derive(Clone, Copy)]
pub struct DiskStops {
    /// The disk.
    pub machine: SymDisk,
    /// The number of the first stop's input.
    pub stop: u64,
    /// The number of the input that is the pick of the failure.
    pub last: u64,
}

impl SymLower for DiskStops {
    ghost use Rattle.ygg_sym_machine.specs.Means.{disk_meaning};
    ghost use Rattle.ygg_sym_machine.specs.Keeps.{disk_keeps_meaning};

    type State = Lows;

    ghost means = { λ m. disk_meaning m.machine };

    fn space(&self, name: &[u8]) -> Option<u64> {
        self.machine.space(name)
    }

    fn handle<B: Book>(
        &self,
        alloc: Global,
        bank: &mut Bank,
        book: &B,
        place: u64,
        question: Awaited<'_>,
        state: &mut Lows,
    ) -> Result<Option<SymValue>, NoMemory> {
        self.machine
            .handle(alloc, bank, book, place, question, state)
    }

    fn merge<B: Book>(
        &self,
        alloc: Global,
        bank: &mut Bank,
        book: &B,
        test: Id,
        yes: &Lows,
        no: &Lows,
    ) -> Result<Lows, NoMemory> {
        self.machine.merge(alloc, bank, book, test, yes, no)
    }

    ghost keeps = { λ m. disk_keeps_meaning m.machine };
}

impl SymStops for DiskStops {
    ghost use Rattle.ygg_sym.specs.DiskFailing.{disk_power};
    ghost use Rattle.ygg_sym.specs.DiskFailingKeeps.{disk_keeps_power};

    ghost power = { disk_power };

    fn stop(&self) -> u64 {
        self.stop
    }

    fn cut<B: Book>(
        &self,
        alloc: Global,
        bank: &mut Bank,
        book: &B,
        question: Awaited<'_>,
        state: &Lows,
    ) -> Result<Lows, NoMemory> {
        // the bank's nodes stand in order
        let _ = bank.len();
        match question {
            Awaited::Choice => Ok(Lows {
                values: lose(alloc, self.machine.disk, &state.values)?,
            }),
            Awaited::Call(name, args) => {
                let values = cut(
                    alloc,
                    bank,
                    book,
                    self.machine.disk,
                    self.last,
                    name,
                    args,
                    &state.values,
                )?;
                Ok(Lows { values })
            }
        }
    }

    fn lose<B: Book>(
        &self,
        alloc: Global,
        bank: &mut Bank,
        _book: &B,
        state: &Lows,
    ) -> Result<Lows, NoMemory> {
        // the bank's nodes stand in order
        let _ = bank.len();
        Ok(Lows {
            values: lose(alloc, self.machine.disk, &state.values)?,
        })
    }

    fn join<B: Book>(
        &self,
        alloc: Global,
        bank: &mut Bank,
        book: &B,
        test: Id,
        yes: &Lows,
        no: &Lows,
    ) -> Result<Lows, NoMemory> {
        let values = join_lows(alloc, bank, book, test, &yes.values, &no.values)?;
        Ok(Lows { values })
    }

    ghost keeps_power = { disk_keeps_power };
}
