//! A disk as the machine on which a block runs.

use crate::machine::handle;
use std::alloc::Global;
use ygg_sym_runs::low_states::{Lows, merge_lows};
use ygg_sym_runs::{Awaited, Bank, Book, Id, NoMemory, SymLower, SymValue};
use ygg_syntax::tree::DiskText;

/// A disk over terms, whose picks are inputs of the bank: of each place the one whose number is so much above the first.
#[derive(Clone, Copy)]
pub struct SymDisk {
    /// Its kind and size.
    pub disk: DiskText,
    /// The number of the first place's pick.
    pub first: u64,
}

impl SymLower for SymDisk {
    ghost use Rattle.ygg_sym_machine.specs.Means.{disk_meaning};
    ghost use Rattle.ygg_sym_machine.specs.Keeps.{disk_keeps_meaning};

    type State = Lows;

    ghost means = { disk_meaning };

    fn space(&self, _name: &[u8]) -> Option<u64> {
        Some(1)
    }

    fn handle<B: Book>(
        &self,
        alloc: Global,
        bank: &mut Bank,
        book: &B,
        place: u64,
        question: Awaited<'_>,
        state: &mut Lows,
    ) -> Result<Option<SymValue>, NoMemory> {
        // the bank's nodes stand in order
        let _ = bank.len();
        match question {
            Awaited::Choice => Ok(None),
            Awaited::Call(name, args) => match self.first.checked_add(place) {
                Some(number) => handle(
                    alloc,
                    bank,
                    book,
                    self.disk,
                    number,
                    name,
                    args,
                    &mut state.values,
                ),
                None => Err(NoMemory),
            },
        }
    }

    fn merge<B: Book>(
        &self,
        alloc: Global,
        bank: &mut Bank,
        book: &B,
        test: Id,
        yes: &Lows,
        no: &Lows,
    ) -> Result<Lows, NoMemory> {
        let values = merge_lows(alloc, bank, book, test, &yes.values, &no.values)?;
        Ok(Lows { values })
    }

    ghost keeps = { disk_keeps_meaning };
}
