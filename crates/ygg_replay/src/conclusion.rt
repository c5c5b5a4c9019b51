//! Whether the conclusion of an obligation holds.

ghost use Rattle.std.specs.Prelude.{◌≡◌, IfOk};
ghost use Rattle.ygg_sched.specs.ygg_meaning.Obligations.{Obligation};
ghost use Rattle.ygg_sched.specs.ygg_meaning.Violates.{same_answer};
ghost use Rattle.ygg_replay.specs.Passing.{AreAll, CanConclude, IsOf, agreeing, answers_for, passing};
ghost use Rattle.ygg_replay.specs.Sites.{IsHere};
ghost use Rattle.ygg_sched.specs.declared.case.CaseKind.TheVariants as kind;

use crate::ends::End;
use crate::site::ReplaySite;
use ygg_list::NoMemory;
use ygg_sched::{Case, CaseKind, Schedule};
use ygg_value::{Value, same};

/// What the conclusion of an obligation is asked of: the obligation, its schedule, and how the runs have ended that it speaks of.
#[derive(Clone, Copy)]
pub struct Trial<'s> {
    pub case: Case,
    pub schedule: &'s Schedule,
    pub end: &'s End,
}

/// Whether two answers are the same.
fn same_answer(a: &Option<Value>, b: &Option<Value>) -> bool
    ensures { result ≡ same_answer a.now b.now }
{
    match (a, b) {
        (None, None) => true,
        (Some(a), Some(b)) => same(a, b),
        _ => false,
    }
}

/// Whether two answers are the same, where the obligation speaks of an answer.
fn answers_for(kind: CaseKind, given: &Option<Value>, wanted: &Option<Value>) -> bool
    ensures { result ≡ answers_for kind given.now wanted.now }
{
    match kind {
        CaseKind::Call => same_answer(given, wanted),
        CaseKind::Init
        | CaseKind::Cut
        | CaseKind::Tick
        | CaseKind::CutTick
        | CaseKind::Idle
        | CaseKind::Again => true,
    }
}

impl<'a> ReplaySite<'a> {
    /// Whether the specification's step with these picks gives the answer that is spoken of, if one is, and variables that are related to the
    /// end of the runs. Its only error is out of memory.
    fn agrees(&self, trial: Trial<'_>, picks: &[bool]) -> Result<bool, NoMemory>
        requires here { IsHere self.now }
        requires can { CanConclude self.now trial }
        requires steps { ¬ (trial.case.kind ≡ kind.Again) }
        requires all { AreAll self.now trial picks.now }
        ensures { IfOk result (λ answer. (o : Obligation) → IsOf self.now trial.entry.case o → answer ≡ agreeing self.now trial.entry o picks.now) }
    {
        let Trial {
            case,
            schedule,
            end,
        } = trial;
        let out = self.outcome(case.kind, case.number, schedule, picks)?;
        if !answers_for(case.kind, &end.answer, &out.answer) {
            return Ok(false);
        }
        self.related(out.after.state(), &end.memory, end.lower.state())
    }

    /// Whether the conclusion holds where the specification takes these picks, as many as its step takes at most. Its only error is out of
    /// memory.
    pub fn passes(&self, trial: Trial<'_>, picks: &[bool]) -> Result<bool, NoMemory>
        requires here { IsHere self.now }
        requires can { CanConclude self.now trial }
        requires all { AreAll self.now trial picks.now }
        ensures { IfOk result (λ answer. (o : Obligation) → IsOf self.now trial.entry.case o → answer ≡ passing self.now trial.entry o picks.now) }
    {
        match trial.case.kind {
            CaseKind::Init | CaseKind::Call | CaseKind::Tick => self.agrees(trial, picks),
            CaseKind::Cut | CaseKind::CutTick | CaseKind::Idle => {
                if trial.end.side {
                    self.agrees(trial, picks)
                } else {
                    Ok(false)
                }
            }
            CaseKind::Again => Ok(trial.end.side),
        }
    }
}
