//! Steps of the layer's own specification.

ghost use Rattle.std.specs.Prelude.{◌≡◌, IfOk, length, slice_get, Some};
ghost use Rattle.ygg_syntax.specs.declared.tree.Operation.{Operation};
ghost use Rattle.ygg_sched.specs.ygg_meaning.Obligations.{Obligation, call_picks, crash_picks, fall_picks};
ghost use Rattle.ygg_sched.specs.ygg_meaning.Spec.{call_outcome, chosen, crash_outcome, fall_outcome};
ghost use Rattle.ygg_sched.specs.Cases.{obligation_at};
ghost use Rattle.ygg_replay.specs.Sites.{IsHere, VarsFit, closed_in, vars_at};
ghost use Rattle.ygg_replay.specs.Steps.{CanStep, EndsIn, EndsSomehow, HasOperation, IsStart, StepEnds, own_machine};

use crate::runs::power_with;
use crate::site::ReplaySite;
use ygg_eval::{Body, Ended, Lower, Part, SpecLower, run_body, spec_lower, zeros};
use ygg_list::{NoMemory, Sequence};
use ygg_sched::{CaseKind, Schedule, Turn};
use ygg_syntax::lists;
use ygg_value::{Value, Values};

/// How a step of a specification has ended: its answer, if it gives one, and the specification after it.
#[derive(Drop)]
pub struct StepOutcome {
    pub answer: Option<Value>,
    pub after: SpecLower,
}

impl<'a> ReplaySite<'a> {
    /// The layer's specification with these values of its variables. Its only error is out of memory.
    fn specification(&self, state: Values) -> Result<SpecLower, NoMemory>
        requires here { IsHere self.now }
        requires fits { VarsFit self.now state }
        ensures { IfOk result (λ machine. machine ≡ own_machine self.now state) }
    {
        // there are 8 layers at most
        let _ = self.typed.layers();
        spec_lower(self.alloc, self.typed, self.place + 1, state)
    }

    /// The variables that the layer's specification starts with. Its only error is out of memory.
    pub fn start(&self) -> Result<Values, NoMemory>
        requires { IsHere self.now }
        ensures { IfOk result (λ state. IsStart self.now state) }
    {
        let body = Body {
            layer: self.place,
            part: Part::Start,
            number: 0,
        };
        let declared = lists::declared::as_slice(&self.layer.state);
        let mut state = zeros(self.alloc, declared)?;
        // a `start` block calls no machine, whichever is handed in
        let mut unused = self.specification(zeros(self.alloc, declared)?)?;
        let none = Sequence::new(self.alloc);
        let mut power = power_with(self.alloc, &[])?;
        match run_body(
            self.alloc,
            self.typed,
            body,
            &none,
            &mut state,
            &mut unused,
            None,
            &mut power,
        )? {
            Ended::Whole(_) => Ok(state),
            Ended::Stopped | Ended::Short | Ended::Down | Ended::Failed => unreachable!(),
        }
    }

    /// A whole operation with these picks. Its only error is out of memory.
    fn called(
        &self,
        number: u32,
        schedule: &Schedule,
        picks: &[bool],
    ) -> Result<StepOutcome, NoMemory>
        requires here { IsHere self.now }
        requires vars { VarsFit self.now schedule.now.state }
        requires operation { HasOperation self.now number schedule.now.args }
        ensures { IfOk result (λ r. (o : Operation) → slice_get self.now.layer.now.operations number ≡ Some o → length picks.now ≡ call_picks o →
            EndsIn self.now (call_outcome (closed_in self.now) o (vars_at self.now schedule.now.state) schedule.now.args (chosen picks.now))
            r.answer r.after.values) }
    {
        let mut after = self.specification(schedule.state.copy(self.alloc)?)?;
        let mut power = power_with(self.alloc, picks)?;
        let answer = match after.call(self.typed, number, &schedule.args, &mut power)? {
            Turn::Done => None,
            Turn::Answer(value) => Some(value),
            Turn::Down | Turn::Failed => unreachable!(),
        };
        Ok(StepOutcome { answer, after })
    }

    /// Power fails within an operation, with these picks. Its only error is out of memory.
    fn fallen(
        &self,
        number: u32,
        schedule: &Schedule,
        picks: &[bool],
    ) -> Result<StepOutcome, NoMemory>
        requires here { IsHere self.now }
        requires vars { VarsFit self.now schedule.now.state }
        requires operation { HasOperation self.now number schedule.now.args }
        ensures { IfOk result (λ r. (o : Operation) → slice_get self.now.layer.now.operations number ≡ Some o →
            length picks.now ≡ fall_picks self.now.layer.now o →
            EndsSomehow self.now (fall_outcome (closed_in self.now) o (vars_at self.now schedule.now.state) schedule.now.args picks.now)
            r.after.values) }
    {
        let mut after = self.specification(schedule.state.copy(self.alloc)?)?;
        let mut power = power_with(self.alloc, picks)?;
        after.fall(self.typed, number, &schedule.args, &mut power)?;
        Ok(StepOutcome {
            answer: None,
            after,
        })
    }

    /// Power fails between operations, with these picks. Its only error is out of memory.
    fn lost(&self, schedule: &Schedule, picks: &[bool]) -> Result<StepOutcome, NoMemory>
        requires here { IsHere self.now }
        requires vars { VarsFit self.now schedule.now.state }
        requires all { length picks.now ≡ crash_picks self.now.layer.now }
        ensures { IfOk result (λ r. EndsSomehow self.now
            (crash_outcome (closed_in self.now) (vars_at self.now schedule.now.state) (chosen picks.now)) r.after.values) }
    {
        let mut after = self.specification(schedule.state.copy(self.alloc)?)?;
        let mut power = power_with(self.alloc, picks)?;
        after.lose(self.typed, &mut power)?;
        Ok(StepOutcome {
            answer: None,
            after,
        })
    }

    /// How the specification's step of an obligation ends with these picks, as many as it takes at most: formatting, the operation, power failing
    /// in it, nothing, or power loss; only two recoveries ask for none. Its only error is out of memory.
    pub fn outcome(
        &self,
        kind: CaseKind,
        number: u32,
        schedule: &Schedule,
        picks: &[bool],
    ) -> Result<StepOutcome, NoMemory>
        requires here { IsHere self.now }
        requires can { CanStep self.now kind number schedule.now picks.now }
        ensures { IfOk result (λ r. (o : Obligation) → obligation_at self.now.layer.now kind number ≡ Some o →
            StepEnds self.now o schedule.now picks.now r.answer r.after.values) }
    {
        match kind {
            CaseKind::Init => Ok(StepOutcome {
                answer: None,
                after: self.specification(self.start()?)?,
            }),
            CaseKind::Call => self.called(number, schedule, picks),
            CaseKind::Cut => self.fallen(number, schedule, picks),
            CaseKind::Tick => Ok(StepOutcome {
                answer: None,
                after: self.specification(schedule.state.copy(self.alloc)?)?,
            }),
            CaseKind::CutTick | CaseKind::Idle => self.lost(schedule, picks),
            CaseKind::Again => unreachable!(),
        }
    }
}
