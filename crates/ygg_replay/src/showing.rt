//! What replaying a schedule shows.

ghost use Rattle.std.specs.Prelude.{◌≡◌, IfOk, IsTrue, Some, length};
ghost use Rattle.ygg_sched.specs.ygg_meaning.Obligations.{Obligation};
ghost use Rattle.ygg_sched.specs.ygg_meaning.Obligations as obligations;
ghost use Rattle.ygg_sched.specs.ygg_meaning.Related.{all_true};
ghost use Rattle.ygg_sched.specs.ygg_meaning.Violates.{hypotheses};
ghost use Rattle.ygg_sched.specs.Cases.{obligation_at};
ghost use Rattle.ygg_replay.specs.Schedules.{IsAsked, IsShown};
ghost use Rattle.ygg_replay.specs.Showing.{CanShow, ShowsHere};
ghost use Rattle.ygg_replay.specs.Sites.{IsHere, closed_in, first_false};
ghost use Rattle.ygg_replay.specs.Steps.{meant_at};

use crate::conclusion::Trial;
use crate::formulas::number_of;
use crate::schedule::Replayed;
use crate::site::ReplaySite;
use std::alloc::Global;
use ygg_list::NoMemory;
use ygg_sched::{Case, CaseKind, Schedule, Typed};
use ygg_syntax::lists;

impl<'a> ReplaySite<'a> {
    /// The first hypothesis on the first states that is false, counted from 0.
    fn false_hypothesis(&self, case: Case, schedule: &Schedule) -> Result<Option<usize>, NoMemory>
        requires here { IsHere self.now }
        requires can { CanShow self.now case schedule.now }
        ensures { IfOk result (λ place. (o : Obligation) → obligation_at self.now.layer.now case.kind case.number ≡ Some o →
            place ≡ first_false (hypotheses (closed_in self.now) o (meant_at self.now schedule.now))) }
    {
        match case.kind {
            CaseKind::Init => Ok(None),
            CaseKind::Call | CaseKind::Cut | CaseKind::Tick | CaseKind::CutTick | CaseKind::Idle =>
                { self.false_relation(&schedule.state, &schedule.memory, &schedule.low) }
            CaseKind::Again => self.false_settled(&schedule.low),
        }
    }

    /// How many hypotheses on the first states there are.
    fn hypotheses(&self, case: Case) -> usize
        ensures { (o : Obligation) (x : obligations.Schedule) → obligation_at self.now.layer.now case.kind case.number ≡ Some o →
            result ≡ length (hypotheses (closed_in self.now) o x) }
    {
        match case.kind {
            CaseKind::Init => 0,
            CaseKind::Call | CaseKind::Cut | CaseKind::Tick | CaseKind::CutTick | CaseKind::Idle =>
                { 1 + lists::expr::as_slice(&self.layer.always).len() }
            CaseKind::Again => self.layer.settled.len(),
        }
    }

    /// What the schedule of an obligation shows whose hypotheses on the first states hold.
    fn concluded(&self, case: Case, schedule: &Schedule) -> Result<Replayed, NoMemory>
        requires here { IsHere self.now }
        requires can { CanShow self.now case schedule.now }
        requires holds { (o : Obligation) → obligation_at self.now.layer.now case.kind case.number ≡ Some o →
            IsTrue (all_true (hypotheses (closed_in self.now) o (meant_at self.now schedule.now))) }
        ensures { IfOk result (λ answer. ShowsHere self.now case schedule.now answer) }
    {
        let Some(end) = self.reached(case.kind, case.number, schedule)? else {
            let number = number_of(self.hypotheses(case))?;
            return Ok(Replayed::Hypothesis(number));
        };
        let trial = Trial {
            case,
            schedule,
            end: &end,
        };
        match self.first_passing(trial)? {
            Some(picks) => Ok(Replayed::Holds(picks)),
            None => Ok(Replayed::Shows),
        }
    }

    /// What the schedule of an obligation shows.
    fn replay(&self, case: Case, schedule: &Schedule) -> Result<Replayed, NoMemory>
        requires here { IsHere self.now }
        requires can { CanShow self.now case schedule.now }
        ensures { IfOk result (λ answer. ShowsHere self.now case schedule.now answer) }
    {
        match self.false_hypothesis(case, schedule)? {
            Some(place) => Ok(Replayed::Hypothesis(number_of(place)?)),
            None => self.concluded(case, schedule),
        }
    }
}

/// Replays a schedule of an obligation of a file. It answers `Shows` exactly where the schedule violates the obligation, `Hypothesis` exactly
/// with the first false hypothesis, and `Holds` exactly with the first list of the specification's picks with which the conclusion holds. Its
/// only error is out of memory.
pub fn replay(
    alloc: Global,
    typed: &Typed,
    case: Case,
    schedule: &Schedule,
) -> Result<Replayed, NoMemory>
    requires { IsAsked typed.now.file case schedule.now }
    ensures { IfOk result (λ answer. IsShown typed.now.file case schedule.now answer) }
{
    let Some(layer) = lists::layer::get(&typed.file().layers, case.layer as usize) else {
        unreachable!();
    };
    let site = ReplaySite {
        alloc,
        typed,
        place: case.layer,
        layer,
    };
    site.replay(case, schedule)
}
