//! Whether some step of a layer's own specification passes, over terms.

ghost use Rattle.std.specs.Prelude.{◌≡◌, ◌<◌, ◌++◌, ◌∷◌, [], IfOk, OnOk};
ghost use Rattle.ygg_sym_spec.specs.ygg_bank.Nodes.{Extends, HasWidth, IsBank};
ghost use Rattle.ygg_sym_spec.specs.ygg_meaning.Violates.{most};
ghost use Rattle.ygg_sym_spec.specs.ygg_sym_runs.Lower.{KeepsSingle};
ghost use Rattle.ygg_sym_spec.specs.Layers.{closed};
ghost use Rattle.ygg_oblige_laws.specs.Outcomes.{any_picks};
ghost use Rattle.ygg_oblige_laws.specs.Terms.{same_answers_made};
ghost use Rattle.ygg_syntax.specs.Choices.{choices_of};
ghost use Rattle.ygg_syntax.specs.Budget.{limit};
ghost use Rattle.ygg_oblige_parts.specs.Passing.{AskedAlike, StepCan, passes_of, some_of};
ghost use Rattle.ygg_oblige_list.specs.InCode.{obligation_of};

use crate::comparing::same_answers;
use crate::digits::{constant, join};
use crate::states::Maker;
use std::alloc::Global;
use ygg_oblige_list::SymObligation;
use ygg_sym_spec::{Bank, Book, Id, NoMemory, SymValue, SymValues};
use ygg_syntax::choices;
use ygg_syntax::tree::Block;
use ygg_value::Op;

/// From how many choices on a block has more than the count tells.
const LIMIT: u64 = 1_000_000;

/// How a run ends, after which the specification's step is asked: the obligation, the variables and arguments that the step begins with, and the
/// answer, the memory and the state below that the run left. Inputs of the bank from the given number on are single digits.
#[derive(Drop)]
pub struct SymStep<'a, 's> {
    /// The obligation.
    pub obligation: SymObligation<'a>,
    /// The variables.
    pub vars: &'s SymValues,
    /// The arguments.
    pub args: &'s SymValues,
    /// The run's answer, if it has one.
    pub answer: &'s Option<SymValue>,
    /// The memory after the run.
    pub memory: &'s SymValues,
    /// The state below after the run.
    pub low: &'s SymValues,
    /// The number.
    pub first: u64,
}

impl<'a, B: Book> Maker<'a, B> {
    /// How many picks the specification's step takes at most. Its only error is out of memory: no machine has memory for all lists of a million
    /// picks.
    pub fn most(&self, obligation: SymObligation<'a>) -> Result<u64, NoMemory>
        ensures { IfOk result (λ n. n ≡ most (closed self.now.layer) (obligation_of obligation.entry)) }
    {
        let layer = self.layer.layer;
        match obligation {
            SymObligation::Init | SymObligation::Tick(_) | SymObligation::Again => Ok(0),
            SymObligation::Call(operation) => count(&operation.spec),
            SymObligation::Cut(operation) => match &operation.on_crash {
                Some(b) => Ok(count(b)? + count(&layer.crash)?),
                None => Ok(1 + count(&operation.spec)? + count(&layer.crash)?),
            },
            SymObligation::CutTick(_) | SymObligation::Idle => count(&layer.crash),
        }
    }

    /// Whether the answers are the same, for the one obligation that speaks of an answer.
    fn same(
        &self,
        bank: &mut Bank,
        obligation: SymObligation<'a>,
        one: &Option<SymValue>,
        two: &Option<SymValue>,
    ) -> Result<Id, NoMemory>
        requires { AskedAlike (obligation_of obligation) bank.old one.now two.now }
        ensures nodes { OnOk result (bank.new
            ≡ (same_answers_made (B.kinds self.now.book.now) (obligation_of obligation.entry) one.now two.now bank.old).nodes) }
        ensures id { IfOk result (λ id. id
            ≡ (same_answers_made (B.kinds self.now.book.now) (obligation_of obligation.entry) one.now two.now bank.old).value) }
        ensures width { IfOk result (λ id. HasWidth bank.new id 1) }
        ensures grows { Extends bank.old bank.new }
        ensures single { OnOk result (KeepsSingle bank.old bank.new) }
        ensures bank { IsBank bank.new }
    {
        match obligation {
            SymObligation::Call(_) => same_answers(bank, self.book, one, two),
            _ => constant(bank, self.book, 1),
        }
    }

    /// Whether the specification's step with these picks gives variables that are related to the end of the run, and its answer where one is
    /// spoken of.
    fn passes(
        &self,
        bank: &mut Bank,
        step: &SymStep<'a, '_>,
        picks: &[bool],
    ) -> Result<Id, NoMemory>
        requires bank { IsBank bank.old }
        requires can { StepCan self.now.layer self.now.below bank.old step.now }
        ensures nodes { OnOk result (bank.new ≡ (passes_of (B.kinds self.now.book.now) self.now.layer step.now picks.now bank.old).nodes) }
        ensures id { IfOk result (λ id. id ≡ (passes_of (B.kinds self.now.book.now) self.now.layer step.now picks.now bank.old).value) }
        ensures width { IfOk result (λ id. HasWidth bank.new id 1) }
        ensures grows { Extends bank.old bank.new }
        ensures single { OnOk result (KeepsSingle bank.old bank.new) }
        ensures bank { IsBank bank.new }
    {
        let obligation = step.obligation;
        let done = self.outcome(bank, obligation, step.vars, step.args, picks, step.first)?;
        let same = self.same(bank, obligation, step.answer, &done.answer)?;
        let related = self.related(bank, &done.vars, step.memory, step.low)?;
        join(bank, self.book, Op::And, same, related)
    }

    /// Whether it does so with some list of so many picks after these.
    fn some_after(
        &self,
        bank: &mut Bank,
        step: &SymStep<'a, '_>,
        left: u64,
        before: &[bool],
    ) -> Result<Id, NoMemory>
        requires bank { IsBank bank.old }
        requires can { StepCan self.now.layer self.now.below bank.old step.now }
        ensures nodes { OnOk result (bank.new
            ≡ (any_picks (B.kinds self.now.book.now) left before.now (passes_of (B.kinds self.now.book.now) self.now.layer step.now) bank.old).nodes) }
        ensures id { IfOk result (λ id. id
            ≡ (any_picks (B.kinds self.now.book.now) left before.now (passes_of (B.kinds self.now.book.now) self.now.layer step.now) bank.old).value) }
        ensures width { IfOk result (λ id. HasWidth bank.new id 1) }
        ensures grows { Extends bank.old bank.new }
        ensures single { OnOk result (KeepsSingle bank.old bank.new) }
        ensures bank { IsBank bank.new }
    {
        if left == 0 {
            return self.passes(bank, step, before);
        }
        let without = more_picks(self.alloc, before, false)?;
        let one = self.some_after(bank, step, left - 1, without.as_slice())?;
        let chosen = more_picks(self.alloc, before, true)?;
        let two = self.some_after(bank, step, left - 1, chosen.as_slice())?;
        join(bank, self.book, Op::Or, one, two)
    }

    /// Whether some step of the specification passes. Its only error is out of memory, after which the bank may have more nodes.
    pub fn some_passes(&self, bank: &mut Bank, step: &SymStep<'a, '_>) -> Result<Id, NoMemory>
        requires bank { IsBank bank.old }
        requires can { StepCan self.now.layer self.now.below bank.old step.now }
        ensures nodes { OnOk result (bank.new ≡ (some_of (B.kinds self.now.book.now) self.now.layer step.now bank.old).nodes) }
        ensures id { IfOk result (λ id. id ≡ (some_of (B.kinds self.now.book.now) self.now.layer step.now bank.old).value) }
        ensures width { IfOk result (λ id. HasWidth bank.new id 1) }
        ensures grows { Extends bank.old bank.new }
        ensures single { OnOk result (KeepsSingle bank.old bank.new) }
        ensures bank { IsBank bank.new }
    {
        let left = self.most(step.obligation)?;
        self.some_after(bank, step, left, &[])
    }
}

/// One pick more.
fn more_picks(alloc: Global, picks: &[bool], pick: bool) -> Result<Vec<bool>, NoMemory>
    ensures { IfOk result (λ more. more.items ≡ picks.now ++ pick ∷ []) }
{
    let mut more = Vec::from_slice(alloc, picks)?;
    more.push(pick)?;
    Ok(more)
}

/// How many choices a block makes at most, where they are below a million. Its only error is out of memory.
fn count(b: &Block) -> Result<u64, NoMemory>
    ensures { IfOk result (λ n. (n ≡ choices_of b.now) × (n < limit)) }
{
    let count = choices(b);
    if count < LIMIT {
        Ok(count)
    } else {
        Err(NoMemory)
    }
}
