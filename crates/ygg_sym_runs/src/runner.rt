//! The expressions, calls and right sides of a block, over terms.

ghost use Rattle.std.specs.Prelude.{◌≡◌, ◌+◌, IfOk, OnOk, All, map};
ghost use Rattle.ygg_sym_runs.specs.ygg_bank.Nodes.{Extends, IsBank};
ghost use Rattle.ygg_meaning_laws.specs.Direct.{source_space};
ghost use Rattle.ygg_sym_runs.specs.Exprs.{id_in, sym_value};
ghost use Rattle.ygg_sym_runs.specs.Seen.{CanTerm, env_of};
ghost use Rattle.ygg_sym_runs.specs.Lower.{CanAsk, KeepsSingle, question_of};
ghost use Rattle.ygg_sym_runs.specs.Ready.{CanGet, known_with, terms_of};
ghost use Rattle.ygg_sym_runs.specs.Runs.{places_of, plain_scope, sym_asks, sym_source, sym_values};

use crate::lower::SymLower;
use crate::question::Awaited;
use crate::{Bank, Book, Id, NoMemory, SymBinding, SymEvaluator, SymValue, SymValues, id_in};
use std::alloc::Global;
use ygg_syntax::lists;
use ygg_syntax::tree::{Def, Expr, Index, Name, Source};

/// What stays the same while a block is run over terms: the definitions of its file, the machine below it, and the rules of terms.
#[derive(Drop)]
pub struct SymRunner<'a, W, B> {
    pub alloc: Global,
    pub defs: &'a [Def],
    pub machine: &'a W,
    pub book: &'a B,
}

impl<'a, W: SymLower, B: Book> SymRunner<'a, W, B> {
    /// The terms of an expression.
    pub fn value(
        &self,
        e: &'a Expr,
        bank: &mut Bank,
        names: &[SymBinding<'a>],
    ) -> Result<SymValue, NoMemory>
        requires can { CanTerm (known_with self.now.defs.now (env_of names.now)) bank.old e.now }
        ensures nodes { OnOk result (bank.new
            ≡ (sym_value (B.kinds self.now.book.now) (terms_of (B.kinds self.now.book.now) self.now.defs.now) e.now
            (plain_scope (env_of names.now)) bank.old).nodes) }
        ensures form { IfOk result (λ x. x
            ≡ (sym_value (B.kinds self.now.book.now) (terms_of (B.kinds self.now.book.now) self.now.defs.now) e.now
            (plain_scope (env_of names.now)) bank.old).value) }
        ensures grows { Extends bank.old bank.new }
        ensures bank { IsBank bank.new }
        ensures single { OnOk result (KeepsSingle bank.old bank.new) }
    {
        // nothing is seen behind `low`
        let low = &names[..0];
        let evaluator = SymEvaluator::new(self.alloc, self.defs, names, low);
        evaluator.value(bank, self.book, e)
    }

    /// The terms of arguments.
    pub fn values(
        &self,
        es: &'a [Expr],
        bank: &mut Bank,
        names: &[SymBinding<'a>],
    ) -> Result<SymValues, NoMemory>
        requires can { All (CanTerm (known_with self.now.defs.now (env_of names.now)) bank.old) es.now }
        requires bank { IsBank bank.old }
        ensures nodes { OnOk result (bank.new ≡ (sym_values (B.kinds self.now.book.now) (terms_of (B.kinds self.now.book.now) self.now.defs.now)
            ((W.means self.now.machine.now).machine (B.kinds self.now.book.now)) es.now (env_of names.now) bank.old).nodes) }
        ensures form { IfOk result (λ xs. xs ≡ (sym_values (B.kinds self.now.book.now) (terms_of (B.kinds self.now.book.now) self.now.defs.now)
            ((W.means self.now.machine.now).machine (B.kinds self.now.book.now)) es.now (env_of names.now) bank.old).value) }
        ensures grows { Extends bank.old bank.new }
        ensures bank { IsBank bank.new }
        ensures single { OnOk result (KeepsSingle bank.old bank.new) }
    {
        let mut values = SymValues::new(self.alloc);
        for e in es {
            let value = self.value(e, bank, names)?;
            values.push(value)?;
        }
        Ok(values)
    }

    /// The terms of the indices of an assignment.
    pub fn places(
        &self,
        indices: &'a [Index],
        bank: &mut Bank,
        names: &[SymBinding<'a>],
    ) -> Result<Vec<Id>, NoMemory>
        requires can { All (CanTerm (known_with self.now.defs.now (env_of names.now)) bank.old) (places_of indices.now) }
        requires bank { IsBank bank.old }
        ensures nodes { OnOk result (bank.new ≡ (sym_values (B.kinds self.now.book.now) (terms_of (B.kinds self.now.book.now) self.now.defs.now)
            ((W.means self.now.machine.now).machine (B.kinds self.now.book.now)) (places_of indices.now) (env_of names.now) bank.old).nodes) }
        ensures form { IfOk result (λ xs. xs.items
            ≡ map id_in (sym_values (B.kinds self.now.book.now) (terms_of (B.kinds self.now.book.now) self.now.defs.now)
            ((W.means self.now.machine.now).machine (B.kinds self.now.book.now)) (places_of indices.now) (env_of names.now) bank.old).value) }
        ensures grows { Extends bank.old bank.new }
        ensures bank { IsBank bank.new }
        ensures single { OnOk result (KeepsSingle bank.old bank.new) }
    {
        let mut places = Vec::new(self.alloc);
        for index in indices {
            let value = self.value(&index.at, bank, names)?;
            places.push(id_in(&value))?;
        }
        Ok(places)
    }

    /// The value of an answer. None, which no typed file uses, counts as the first term.
    fn ask(
        &self,
        place: u64,
        question: Awaited<'_>,
        bank: &mut Bank,
        state: &mut W::State,
    ) -> Result<SymValue, NoMemory>
        requires asks { CanAsk (W.means self.now.machine.now) bank.old (question_of question) state.old }
        ensures nodes { OnOk result (bank.new ≡ (sym_asks (B.kinds self.now.book.now) (terms_of (B.kinds self.now.book.now) self.now.defs.now)
            ((W.means self.now.machine.now).machine (B.kinds self.now.book.now)) place (question_of question.entry) state.old bank.old).nodes) }
        ensures form { IfOk result (λ x. x ≡ (sym_asks (B.kinds self.now.book.now) (terms_of (B.kinds self.now.book.now) self.now.defs.now)
            ((W.means self.now.machine.now).machine (B.kinds self.now.book.now)) place (question_of question.entry) state.old bank.old).value.value) }
        ensures state { OnOk result (state.new ≡ (sym_asks (B.kinds self.now.book.now) (terms_of (B.kinds self.now.book.now) self.now.defs.now)
            ((W.means self.now.machine.now).machine (B.kinds self.now.book.now)) place (question_of question.entry) state.old bank.old).value.to) }
        ensures grows { Extends bank.old bank.new }
        ensures bank { IsBank bank.new }
        ensures single { OnOk result (KeepsSingle bank.old bank.new) }
    {
        match self
            .machine
            .handle(self.alloc, bank, self.book, place, question, state)?
        {
            Some(value) => Ok(value),
            None => Ok(SymValue::Word(Id(0))),
        }
    }

    /// The value of a right side at a place.
    pub fn source(
        &self,
        from: &'a Source,
        place: u64,
        bank: &mut Bank,
        names: &[SymBinding<'a>],
        state: &mut W::State,
    ) -> Result<SymValue, NoMemory>
        requires can { CanGet (W.means self.now.machine.now) self.now.defs.now from.now bank.old (env_of names.now) state.old }
        requires bank { IsBank bank.old }
        ensures nodes { OnOk result (bank.new ≡ (sym_source (B.kinds self.now.book.now) (terms_of (B.kinds self.now.book.now) self.now.defs.now)
            ((W.means self.now.machine.now).machine (B.kinds self.now.book.now)) from.now place (env_of names.now) state.old bank.old).nodes) }
        ensures form { IfOk result (λ x. x ≡ (sym_source (B.kinds self.now.book.now) (terms_of (B.kinds self.now.book.now) self.now.defs.now)
            ((W.means self.now.machine.now).machine (B.kinds self.now.book.now)) from.now place (env_of names.now) state.old bank.old).value.value) }
        ensures state { OnOk result (state.new ≡ (sym_source (B.kinds self.now.book.now) (terms_of (B.kinds self.now.book.now) self.now.defs.now)
            ((W.means self.now.machine.now).machine (B.kinds self.now.book.now)) from.now place (env_of names.now) state.old bank.old).value.to) }
        ensures grows { Extends bank.old bank.new }
        ensures bank { IsBank bank.new }
        ensures single { OnOk result (KeepsSingle bank.old bank.new) }
    {
        match from {
            Source::Value(e) => self.value(e, bank, names),
            Source::Choose(_) => self.ask(place, Awaited::Choice, bank, state),
            Source::Call(_, f, es) => {
                let args = self.values(lists::expr::as_slice(es), bank, names)?;
                let question = Awaited::Call(f.text.as_slice(), args.as_slice());
                self.ask(place, question, bank, state)
            }
        }
    }

    /// The place after the call of an operation at a place.
    pub fn after_call(&self, f: &Name, place: u64) -> Result<u64, NoMemory>
        ensures { IfOk result (λ end. end ≡ place + ((W.means self.now.machine.now).machine (B.kinds self.now.book.now)).space f.now.text) }
    {
        let Some(room) = self.machine.space(f.text.as_slice()) else {
            return Err(NoMemory);
        };
        add(place, room)
    }

    /// The place after a right side at a place.
    pub fn after(&self, from: &Source, place: u64) -> Result<u64, NoMemory>
        ensures { IfOk result (λ end. end
            ≡ place + source_space ((W.means self.now.machine.now).machine (B.kinds self.now.book.now)).space from.now) }
    {
        match from {
            Source::Value(_) => Ok(place),
            Source::Choose(_) => add(place, 1),
            Source::Call(_, f, _) => self.after_call(f, place),
        }
    }
}

/// A place further on; no machine has memory for so many inputs that their numbers don't fit in 64 digits.
fn add(place: u64, room: u64) -> Result<u64, NoMemory>
    ensures { IfOk result (λ end. end ≡ place + room) }
{
    match place.checked_add(room) {
        Some(end) => Ok(end),
        None => Err(NoMemory),
    }
}
