//! The search for the first list of the specification's picks with which a conclusion holds.

ghost use Rattle.std.specs.Prelude.{◌≡◌, ◌<◌, [], IfOk};
ghost use Rattle.ygg_syntax.specs.Choices.{choices_of};
ghost use Rattle.ygg_sched.specs.ygg_syntax.Budget.{limit};
ghost use Rattle.ygg_sched.specs.ygg_meaning.Obligations.{Obligation, fall_picks};
ghost use Rattle.ygg_sched.specs.ygg_meaning.Violates.{most};
ghost use Rattle.ygg_replay.specs.Passing.{CanConclude, IsOf, passing};
ghost use Rattle.ygg_replay.specs.Sites.{IsHere, closed_in};
ghost use Rattle.ygg_replay_search.specs.Searching.{IsFirstAfter};

use crate::conclusion::Trial;
use crate::site::ReplaySite;
use ygg_base::Bits;
use ygg_list::NoMemory;
use ygg_replay_search::{Test, first_passing};
use ygg_sched::{Case, CaseKind, choices};
use ygg_syntax::lists;
use ygg_syntax::tree::{Block, Operation};

/// From how many choices on a block has more than the count tells.
const LIMIT: u64 = 1_000_000;

/// How many choices a block makes at most. No machine has memory for all lists of a million picks.
fn count(block: &Block) -> Result<u64, NoMemory>
    ensures exact { IfOk result (λ n. n ≡ choices_of block.now) }
    ensures small { IfOk result (λ n. n < limit) }
{
    let n = choices(block);
    if n == LIMIT {
        return Err(NoMemory);
    }
    Ok(n)
}

/// A trial, as a test of the lists of picks of which the specification's step may take one.
#[derive(Drop)]
struct Trying<'a> {
    site: &'a ReplaySite<'a>,
    trial: Trial<'a>,
}

impl Test for Trying<'_> {
    ghost use Rattle.ygg_replay.specs.Passing.{CanTry, most_asked, passing_asked};

    ghost ready = { λ t. CanTry t.site.now t.trial };

    ghost count = { λ t. most_asked t.site.now t.trial };

    ghost passing = { λ t. passing_asked t.site.now t.trial };

    fn passes(&self, picks: &[bool]) -> Result<bool, NoMemory> {
        self.site.passes(self.trial, picks)
    }
}

impl<'a> ReplaySite<'a> {
    /// How many picks an operation that power has cut takes at most.
    fn most_in_fall(&self, operation: &Operation) -> Result<u64, NoMemory>
        ensures { IfOk result (λ n. n ≡ fall_picks self.now.layer.now operation.now) }
    {
        let crash = count(&self.layer.crash)?;
        match &operation.on_crash {
            Some(block) => Ok(count(block)? + crash),
            None => Ok(1 + count(&operation.spec)? + crash),
        }
    }

    /// How many picks the specification's step of an obligation takes at most.
    fn most(&self, case: Case) -> Result<u64, NoMemory>
        requires { (o : Obligation) × IsOf self.now case o }
        ensures { IfOk result (λ n. (o : Obligation) → IsOf self.now case o → n ≡ most (closed_in self.now) o) }
    {
        match case.kind {
            CaseKind::Init | CaseKind::Tick | CaseKind::Again => Ok(0),
            CaseKind::Call => count(
                &lists::operation::as_slice(&self.layer.operations)[case.number as usize].spec,
            ),
            CaseKind::Cut => {
                self.most_in_fall(
                    &lists::operation::as_slice(&self.layer.operations)[case.number as usize],
                )
            }
            CaseKind::CutTick | CaseKind::Idle => count(&self.layer.crash),
        }
    }

    /// The first list of as many picks as the specification's step takes at most with which the conclusion holds. Its only error is out of
    /// memory.
    pub fn first_passing(&self, trial: Trial<'_>) -> Result<Option<Bits>, NoMemory>
        requires here { IsHere self.now }
        requires can { CanConclude self.now trial }
        ensures { IfOk result (λ found. (o : Obligation) → IsOf self.now trial.entry.case o →
            IsFirstAfter (most (closed_in self.now) o) (passing self.now trial.entry o) [] found) }
    {
        let most = self.most(trial.case)?;
        let trying = Trying { site: self, trial };
        first_passing(self.alloc, &trying, most)
    }
}
