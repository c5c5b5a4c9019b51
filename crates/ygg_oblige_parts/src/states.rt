//! The states that a layer's obligations speak of, over terms.

ghost use Rattle.std.specs.Prelude.{◌≡◌, ◌+◌, ◌<◌, ◌^◌, IfOk, OnOk, All};
ghost use Rattle.ygg_sym_spec.specs.ygg_bank.Inputs.{InputsBelow};
ghost use Rattle.ygg_sym_spec.specs.ygg_bank.Nodes.{Extends, HasWidth, IsBank};
ghost use Rattle.ygg_sym_spec.specs.ygg_meaning.Related.{relations};
ghost use Rattle.ygg_sym_spec.specs.ygg_sym_runs.Lows.{LowShaped};
ghost use Rattle.ygg_sym_spec.specs.ygg_sym_runs.Seen.{env_of};
ghost use Rattle.ygg_sym_spec.specs.ygg_sym_runs.Lower.{KeepsSingle};
ghost use Rattle.ygg_sym_spec.specs.Layers.{closed, terms_in};
ghost use Rattle.ygg_oblige_laws.specs.ygg_shape.Replacing.{replaced_value};
ghost use Rattle.ygg_oblige_laws.specs.TermStates.{
  fresh_trio,
  related_made,
  related_under,
  replaced_all,
  replaced_trio,
  settled_made,
  settled_under,
  started_made,
  starting,
  state_words,
};
ghost use Rattle.ygg_oblige_laws.specs.Worth.{TrioShaped};
ghost use Rattle.ygg_oblige_parts.specs.Formulas.{CanTest, seen, truths_in};
ghost use Rattle.ygg_oblige_parts.specs.Makers.{LayerFits, StartingShaped, starting_of, trio_of};

use crate::digits::{join, known};
use crate::formulas::{digit, truths};
use crate::names::{add_names, fresh};
use std::alloc::Global;
use ygg_oblige_given::words_in;
use ygg_oblige_laws::{Replacements, facts, replace};
use ygg_sym_spec::{
    Bank, Book, Id, NoMemory, SymBelow, SymBinding, SymEvaluator, SymLayer, SymValue, SymValues,
};
use ygg_syntax::lists;
use ygg_value::Op;

/// Variables of a specification, a memory, and a state below.
pub struct SymTrio {
    /// The specification's variables.
    pub vars: SymValues,
    /// The memory.
    pub memory: SymValues,
    /// The state below.
    pub low: SymValues,
}

impl Drop for SymTrio {
    fn drop(self) {
        let SymTrio {
            vars: _,
            memory: _,
            low: _,
        } = self;
    }
}

/// The states that a layer's obligations begin with.
pub struct SymStarting {
    /// Whether the layer's relation holds of the inputs.
    pub related: Id,
    /// The states, with what the relation says of their inputs put in their stead.
    pub from: SymTrio,
    /// Whether the state below is settled.
    pub settled: Id,
    /// That state, with what is said of its inputs put in their stead.
    pub settled_low: SymValues,
}

impl Drop for SymStarting {
    fn drop(self) {
        let SymStarting {
            related: _,
            from: _,
            settled: _,
            settled_low: _,
        } = self;
    }
}

/// What stays the same while the terms of a layer's obligations are made: the rules of terms, the layer, and what it is specified over.
#[derive(Drop)]
pub struct Maker<'a, B> {
    /// Where memory comes from.
    pub alloc: Global,
    /// The rules of terms.
    pub book: &'a B,
    /// The layer.
    pub layer: SymLayer<'a>,
    /// What it is specified over.
    pub below: SymBelow<'a>,
}

/// A value with terms in the stead of its inputs, so often that what is said of one input by another is followed a few times.
fn replaced(
    alloc: Global,
    replacements: &Replacements,
    value: &SymValue,
) -> Result<SymValue, NoMemory>
    ensures { IfOk result (λ x. x
        ≡ replaced_value replacements.now (replaced_value replacements.now (replaced_value replacements.now value.now))) }
{
    let once = replace(alloc, replacements, value)?;
    let twice = replace(alloc, replacements, &once)?;
    replace(alloc, replacements, &twice)
}

/// Values with terms in the stead of their inputs.
fn replaced_all(
    alloc: Global,
    replacements: &Replacements,
    values: &SymValues,
) -> Result<SymValues, NoMemory>
    ensures { IfOk result (λ xs. xs ≡ replaced_all replacements.now values.now) }
{
    let mut answer = SymValues::new(alloc);
    let all = values.as_slice();
    for value in all {
        let other = replaced(alloc, replacements, value)?;
        answer.push(other)?;
    }
    Ok(answer)
}

/// The states with terms in the stead of their inputs.
fn replaced_trio(
    alloc: Global,
    replacements: &Replacements,
    x: &SymTrio,
) -> Result<SymTrio, NoMemory>
    ensures { IfOk result (λ y. trio_of y ≡ replaced_trio replacements.now (trio_of x.now)) }
{
    Ok(SymTrio {
        vars: replaced_all(alloc, replacements, &x.vars)?,
        memory: replaced_all(alloc, replacements, &x.memory)?,
        low: replaced_all(alloc, replacements, &x.low)?,
    })
}

/// Whether the layer's relation holds of its inputs, and the states with what it says of them in their stead.
struct SymRelated {
    /// The test.
    test: Id,
    /// The states.
    from: SymTrio,
}

/// Whether the state below is settled, and that state with what this says of its inputs in their stead.
struct SymSettled {
    /// The test.
    test: Id,
    /// The state below.
    low: SymValues,
}

impl<'a, B: Book> Maker<'a, B> {
    /// Whether the layer's relation holds of these names.
    fn relations(
        &self,
        bank: &mut Bank,
        own: &[SymBinding<'a>],
        low: &[SymBinding<'a>],
    ) -> Result<Id, NoMemory>
        requires bank { IsBank bank.old }
        requires tests { All (CanTest (seen self.now.layer.defs.now (env_of own.now) (env_of low.now)) bank.old) (relations (closed self.now.layer)) }
        ensures nodes { OnOk result (bank.new ≡ (truths_in (B.kinds self.now.book.now) (seen self.now.layer.defs.now (env_of own.now) (env_of low.now))
            (relations (closed self.now.layer)) bank.old).nodes) }
        ensures id { IfOk result (λ id. id ≡ (truths_in (B.kinds self.now.book.now) (seen self.now.layer.defs.now (env_of own.now) (env_of low.now))
            (relations (closed self.now.layer)) bank.old).value) }
        ensures width { IfOk result (λ id. HasWidth bank.new id 1) }
        ensures grows { Extends bank.old bank.new }
        ensures bank { IsBank bank.new }
    {
        let layer = self.layer.layer;
        let evaluator = SymEvaluator::new(self.alloc, self.layer.defs, own, low);
        let first = digit(bank, self.book, &evaluator, &layer.relate)?;
        let always = lists::expr::as_slice(&layer.always);
        let rest = truths(self.alloc, bank, self.book, &evaluator, always)?;
        join(bank, self.book, Op::And, first, rest)
    }

    /// Whether the layer's relation holds of these states. Its only error is out of memory, after which the bank may have more nodes.
    pub fn related(
        &self,
        bank: &mut Bank,
        vars: &SymValues,
        memory: &SymValues,
        low: &SymValues,
    ) -> Result<Id, NoMemory>
        requires layer { LayerFits self.now.layer self.now.below }
        requires shaped { TrioShaped (closed self.now.layer) bank.old (record { vars = vars.now; memory = memory.now; low = low.now }) }
        ensures nodes { OnOk result (bank.new ≡ (related_made (B.kinds self.now.book.now) (terms_in (B.kinds self.now.book.now) self.now.layer)
            (closed self.now.layer) (record { vars = vars.now; memory = memory.now; low = low.now }) bank.old).nodes) }
        ensures id { IfOk result (λ id. id ≡ (related_made (B.kinds self.now.book.now) (terms_in (B.kinds self.now.book.now) self.now.layer)
            (closed self.now.layer) (record { vars = vars.now; memory = memory.now; low = low.now }) bank.old).value) }
        ensures width { IfOk result (λ id. HasWidth bank.new id 1) }
        ensures grows { Extends bank.old bank.new }
        ensures single { OnOk result (KeepsSingle bank.old bank.new) }
        ensures bank { IsBank bank.new }
    {
        // the bank's nodes stand in order
        let _ = bank.len();
        let mut own = Vec::new(self.alloc);
        let state = lists::declared::as_slice(&self.layer.layer.state);
        add_names(self.alloc, &mut own, state, vars.as_slice())?;
        let declared = lists::declared::as_slice(&self.layer.layer.memory);
        add_names(self.alloc, &mut own, declared, memory.as_slice())?;
        let mut behind = Vec::new(self.alloc);
        add_names(self.alloc, &mut behind, self.layer.low, low.as_slice())?;
        self.relations(bank, own.as_slice(), behind.as_slice())
    }

    /// Whether the state below is one that recovery may begin with. Its only error is out of memory, after which the bank may have more nodes.
    pub fn settled(&self, bank: &mut Bank, low: &SymValues) -> Result<Id, NoMemory>
        requires layer { LayerFits self.now.layer self.now.below }
        requires shaped { LowShaped bank.old self.now.layer.low.now low.now }
        ensures nodes { OnOk result (bank.new ≡ (settled_made (B.kinds self.now.book.now) (terms_in (B.kinds self.now.book.now) self.now.layer)
            (closed self.now.layer) low.now bank.old).nodes) }
        ensures id { IfOk result (λ id. id ≡ (settled_made (B.kinds self.now.book.now) (terms_in (B.kinds self.now.book.now) self.now.layer)
            (closed self.now.layer) low.now bank.old).value) }
        ensures width { IfOk result (λ id. HasWidth bank.new id 1) }
        ensures grows { Extends bank.old bank.new }
        ensures single { OnOk result (KeepsSingle bank.old bank.new) }
        ensures bank { IsBank bank.new }
    {
        // the bank's nodes stand in order
        let _ = bank.len();
        let mut behind = Vec::new(self.alloc);
        add_names(self.alloc, &mut behind, self.layer.low, low.as_slice())?;
        let evaluator = SymEvaluator::new(self.alloc, self.layer.defs, &[], behind.as_slice());
        let settled = lists::expr::as_slice(&self.layer.layer.settled);
        truths(self.alloc, bank, self.book, &evaluator, settled)
    }

    /// Fresh variables, memory and state below, numbered on from a number.
    fn fresh_trio(&self, bank: &mut Bank, number: u64) -> Result<SymTrio, NoMemory>
        requires bank { IsBank bank.old }
        requires layer { LayerFits self.now.layer self.now.below }
        requires below { InputsBelow number bank.old }
        requires room { number + state_words (closed self.now.layer) < 2 ^ 64 }
        ensures nodes { OnOk result (bank.new ≡ (fresh_trio (B.kinds self.now.book.now) (terms_in (B.kinds self.now.book.now) self.now.layer)
            (closed self.now.layer) number bank.old).nodes) }
        ensures form { IfOk result (λ x. trio_of x ≡ (fresh_trio (B.kinds self.now.book.now) (terms_in (B.kinds self.now.book.now) self.now.layer)
            (closed self.now.layer) number bank.old).value) }
        ensures shape { IfOk result (λ x. TrioShaped (closed self.now.layer) bank.new (trio_of x)) }
        ensures grows { Extends bank.old bank.new }
        ensures bank { IsBank bank.new }
    {
        let state = lists::declared::as_slice(&self.layer.layer.state);
        let memory = lists::declared::as_slice(&self.layer.layer.memory);
        let low = self.layer.low;
        let own = words_in(state)?;
        let more = words_in(memory)?;
        let vars = fresh(self.alloc, bank, self.book, number, state)?;
        let memory = fresh(self.alloc, bank, self.book, number + own, memory)?;
        let low = fresh(self.alloc, bank, self.book, number + own + more, low)?;
        Ok(SymTrio { vars, memory, low })
    }

    /// The states that the obligations begin with, their inputs numbered on from a number that is above those of all inputs. Its only error is
    /// out of memory, after which the bank may have more nodes.
    pub fn starting(&self, bank: &mut Bank, number: u64) -> Result<SymStarting, NoMemory>
        requires layer { LayerFits self.now.layer self.now.below }
        requires below { InputsBelow number bank.old }
        requires room { number + state_words (closed self.now.layer) < 2 ^ 64 }
        ensures nodes { OnOk result (bank.new ≡ (starting (B.kinds self.now.book.now) (terms_in (B.kinds self.now.book.now) self.now.layer)
            (closed self.now.layer) number bank.old).nodes) }
        ensures form { IfOk result (λ s. starting_of s ≡ (starting (B.kinds self.now.book.now) (terms_in (B.kinds self.now.book.now) self.now.layer)
            (closed self.now.layer) number bank.old).value) }
        ensures shape { IfOk result (λ s. StartingShaped (closed self.now.layer) bank.new (starting_of s)) }
        ensures inputs { OnOk result (InputsBelow (number + state_words (closed self.now.layer)) bank.new) }
        ensures grows { Extends bank.old bank.new }
        ensures bank { IsBank bank.new }
    {
        // the bank's nodes stand in order
        let _ = bank.len();
        let x = self.fresh_trio(bank, number)?;
        self.started(bank, &x)
    }

    /// Whether the layer's relation holds of these inputs, made anew where what it says of them stands in their stead.
    fn related_under(&self, bank: &mut Bank, x: &SymTrio) -> Result<SymRelated, NoMemory>
        requires layer { LayerFits self.now.layer self.now.below }
        requires shaped { TrioShaped (closed self.now.layer) bank.old (trio_of x.now) }
        ensures nodes { OnOk result (bank.new ≡ (related_under (B.kinds self.now.book.now) (terms_in (B.kinds self.now.book.now) self.now.layer)
            (closed self.now.layer) (trio_of x.now) bank.old).nodes) }
        ensures test { IfOk result (λ r. r.test ≡ (related_under (B.kinds self.now.book.now) (terms_in (B.kinds self.now.book.now) self.now.layer)
            (closed self.now.layer) (trio_of x.now) bank.old).value.test) }
        ensures from { IfOk result (λ r. trio_of r.from ≡ replaced_trio (related_under (B.kinds self.now.book.now)
            (terms_in (B.kinds self.now.book.now) self.now.layer) (closed self.now.layer) (trio_of x.now) bank.old).value.facts (trio_of x.now)) }
        ensures grows { Extends bank.old bank.new }
        ensures bank { IsBank bank.new }
    {
        let said = self.related(bank, &x.vars, &x.memory, &x.low)?;
        let replacements = facts(self.alloc, bank, self.book, said)?;
        let from = replaced_trio(self.alloc, &replacements, x)?;
        let known = known(bank, self.book, &replacements)?;
        let rest = self.related(bank, &from.vars, &from.memory, &from.low)?;
        let test = join(bank, self.book, Op::And, known, rest)?;
        Ok(SymRelated { test, from })
    }

    /// Whether the state below is one that recovery may begin with, made anew where what this says of its inputs stands in their stead.
    fn settled_under(&self, bank: &mut Bank, low: &SymValues) -> Result<SymSettled, NoMemory>
        requires layer { LayerFits self.now.layer self.now.below }
        requires shaped { LowShaped bank.old self.now.layer.low.now low.now }
        ensures nodes { OnOk result (bank.new ≡ (settled_under (B.kinds self.now.book.now) (terms_in (B.kinds self.now.book.now) self.now.layer)
            (closed self.now.layer) low.now bank.old).nodes) }
        ensures test { IfOk result (λ s. s.test ≡ (settled_under (B.kinds self.now.book.now) (terms_in (B.kinds self.now.book.now) self.now.layer)
            (closed self.now.layer) low.now bank.old).value.test) }
        ensures low { IfOk result (λ s. s.low ≡ replaced_all (settled_under (B.kinds self.now.book.now)
            (terms_in (B.kinds self.now.book.now) self.now.layer) (closed self.now.layer) low.now bank.old).value.facts low.now) }
        ensures grows { Extends bank.old bank.new }
        ensures bank { IsBank bank.new }
    {
        let said = self.settled(bank, low)?;
        let replacements = facts(self.alloc, bank, self.book, said)?;
        let from = replaced_all(self.alloc, &replacements, low)?;
        let known = known(bank, self.book, &replacements)?;
        let rest = self.settled(bank, &from)?;
        let test = join(bank, self.book, Op::And, known, rest)?;
        Ok(SymSettled { test, low: from })
    }

    /// The states that the obligations begin with, from their inputs.
    fn started(&self, bank: &mut Bank, x: &SymTrio) -> Result<SymStarting, NoMemory>
        requires layer { LayerFits self.now.layer self.now.below }
        requires shaped { TrioShaped (closed self.now.layer) bank.old (trio_of x.now) }
        ensures nodes { OnOk result (bank.new ≡ (started_made (B.kinds self.now.book.now) (terms_in (B.kinds self.now.book.now) self.now.layer)
            (closed self.now.layer) (trio_of x.now) bank.old).nodes) }
        ensures form { IfOk result (λ s. starting_of s ≡ (started_made (B.kinds self.now.book.now) (terms_in (B.kinds self.now.book.now) self.now.layer)
            (closed self.now.layer) (trio_of x.now) bank.old).value) }
        ensures grows { Extends bank.old bank.new }
        ensures bank { IsBank bank.new }
    {
        let first = self.related_under(bank, x)?;
        let SymRelated {
            test: related,
            from,
        } = first;
        let second = self.settled_under(bank, &x.low)?;
        let SymSettled {
            test: settled,
            low: settled_low,
        } = second;
        Ok(SymStarting {
            related,
            from,
            settled,
            settled_low,
        })
    }
}
