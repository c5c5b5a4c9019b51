//! From the text of a schedule to how its replay ends.

ghost use Rattle.std.specs.Prelude.{◌≡◌, ◌≤◌, length, IfOk};
ghost use Rattle.ygg_replay.specs.ygg_sched.Fitting.{IsScheduleOf};
ghost use Rattle.ygg_replay.specs.Schedules.{shown_by};
ghost use Rattle.ygg_replay.specs.Shown.{ShowsOf};
ghost use Rattle.ygg_replay.specs.Ending.{Replaying, line_of, status_of};

use crate::schedule::Replayed;
use crate::showing::replay;
use std::alloc::Global;
use ygg_base::{NoMemory, Refuse, Status, Text};
use ygg_sched::{
    Schedule, Typed, case_named, holds_with, hypothesis, read_schedule, refused, shows,
};

/// What a schedule of a file shows of the obligation that it names. Its only error is out of memory.
fn shown(alloc: Global, typed: &Typed, schedule: &Schedule) -> Result<Replayed, NoMemory>
    requires { IsScheduleOf typed.now.file schedule.now }
    ensures { IfOk result (λ answer. ShowsOf typed.now.file schedule.now (shown_by answer)) }
{
    match case_named(typed.file(), schedule.name.as_slice())? {
        Some(case) => replay(alloc, typed, case, schedule),
        None => unreachable!(),
    }
}

/// The status of what is shown.
fn status_of(answer: &Replayed) -> Status
    ensures { result ≡ status_of (shown_by answer.now) }
{
    match answer {
        Replayed::Shows => Status::Refuted,
        Replayed::Hypothesis(_) | Replayed::Holds(_) => Status::Refused,
    }
}

/// The line of what is shown of the obligation of a name. Its only error is out of memory.
fn line_of(alloc: Global, name: &Text, answer: &Replayed) -> Result<Text, NoMemory>
    ensures { IfOk result (λ line. line ≡ line_of name.now (shown_by answer.now)) }
{
    match answer {
        Replayed::Shows => shows(alloc, name),
        Replayed::Hypothesis(number) => hypothesis(alloc, *number),
        Replayed::Holds(picks) => holds_with(alloc, picks),
    }
}

/// Replays the text of a schedule for a file. A text that is no schedule of the file is refused 31 to 34 at its first line that is at fault; else a
/// line says what the schedule shows: `shows NAME`, with the status of a refutation, where it violates the obligation that it names; `hypothesis I`, for
/// the first hypothesis that is false; or `holds BITS`, for the first list of the specification's picks with which the conclusion holds. Its only error is
/// out of memory.
pub fn replay_text(alloc: Global, typed: &Typed, text: &[u8]) -> Result<(Status, Text), NoMemory>
    requires { length text.now ≤ 67108864 }
    ensures { IfOk result (λ end. Replaying typed.now.file text.now end.0 end.1) }
{
    let schedule = match read_schedule(alloc, text, typed) {
        Ok(schedule) => schedule,
        Err(Refuse::At(at)) => return Ok((Status::Refused, refused(alloc, at)?)),
        Err(Refuse::Memory) => return Err(NoMemory),
    };
    let answer = shown(alloc, typed, &schedule)?;
    let line = line_of(alloc, &schedule.name, &answer)?;
    Ok((status_of(&answer), line))
}
