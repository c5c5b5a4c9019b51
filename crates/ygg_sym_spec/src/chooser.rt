//! Choices as the machine on which a block of a specification runs.

use crate::picks::SymPicks;
use std::alloc::Global;
use std::marker::Model;
use ygg_list::Duplicate;
use ygg_sym_runs::{Awaited, Bank, Book, Id, NoMemory, SymLower, SymValue};

/// The state of a machine that has none.
#[derive(Drop)]
pub struct Nothing;

impl Model for Nothing {
    ghost use Rattle.ygg_sym_runs.specs.Specs.{Nothing};

    ghost Value = { Nothing };

    ghost view = { λ s. tt };
}

impl Duplicate for Nothing {
    fn duplicate(&self, _alloc: Global) -> Result<Nothing, NoMemory> {
        Ok(Nothing)
    }
}

/// A machine that answers each choice by the pick of its place.
#[derive(Clone, Copy)]
pub struct SymChooser<'a> {
    /// The picks.
    pub picks: SymPicks<'a>,
}

impl<'a> SymLower for SymChooser<'a> {
    ghost use Rattle.ygg_sym_spec.specs.Chooser.{chooser_meaning};
    ghost use Rattle.ygg_sym_spec.specs.Choosing.{chooser_keeps};

    type State = Nothing;

    ghost means = { chooser_meaning };

    fn space(&self, _name: &[u8]) -> Option<u64> {
        Some(1)
    }

    fn handle<B: Book>(
        &self,
        _alloc: Global,
        bank: &mut Bank,
        book: &B,
        place: u64,
        question: Awaited<'_>,
        _state: &mut Nothing,
    ) -> Result<Option<SymValue>, NoMemory> {
        // the bank's nodes stand in order
        let _ = bank.len();
        match question {
            Awaited::Choice => {
                let pick = self.picks.make(bank, book, place)?;
                Ok(Some(SymValue::Word(pick)))
            }
            Awaited::Call(_, _) => Ok(None),
        }
    }

    fn merge<B: Book>(
        &self,
        _alloc: Global,
        bank: &mut Bank,
        _book: &B,
        _test: Id,
        _yes: &Nothing,
        _no: &Nothing,
    ) -> Result<Nothing, NoMemory> {
        // the bank's nodes stand in order
        let _ = bank.len();
        Ok(Nothing)
    }

    ghost keeps = { chooser_keeps };
}
