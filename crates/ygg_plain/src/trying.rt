//! From a schedule to a plain one.

ghost use Rattle.std.specs.Prelude.{◌≡◌, ◌<◌, length, true, IfOk};
ghost use Rattle.ygg_oblige.specs.ygg_bank.Values.{inputs_of};
ghost use Rattle.ygg_replay.specs.ygg_meaning.Claims.{claims_of};
ghost use Rattle.ygg_oblige_reading.specs.Meant.{FitsTerms};
ghost use Rattle.ygg_oblige_schedule.specs.Fitted.{IsFitted};
ghost use Rattle.ygg_replay.specs.Schedules.{IsAsked};
ghost use Rattle.ygg_plain.specs.Like.{IsBounded};
ghost use Rattle.ygg_plain.specs.Plain.{IsPlainOf, IsViolated, ViolatesAsNamed};

use crate::listing::{
    columns_below, earlier_stops, equal_numbers, kept_writes, single_words, whole_values,
};
use crate::step::{Step, is_same, stepped};
use crate::work::{Left, size, work_of};
use std::alloc::Global;
use ygg_list::NoMemory;
use ygg_oblige_reading::{Book, case_at, schedule_at};
use ygg_oblige_schedule::Env;
use ygg_replay::{Replayed, Schedule, Typed, replay};
use ygg_sched::Case;

/// How often all kinds of steps are tried.
const MOST_ROUNDS: u32 = 40;

/// An obligation of a file, and how much work a replay of a schedule of it is.
#[derive(Clone, Copy)]
struct Plainer<'a> {
    alloc: Global,
    typed: &'a Typed,
    case: Case,
    work: u64,
}

impl Plainer<'_> {
    /// Whether a schedule violates the obligation. Its only error is out of memory.
    fn is_violated(&self, schedule: &Schedule) -> Result<bool, NoMemory>
        requires { IsAsked self.now.typed.now.file self.now.case schedule.now }
        ensures { IfOk result (λ answer. answer ≡ true → IsViolated self.now.typed.now.file self.now.case schedule.now) }
    {
        match replay(self.alloc, self.typed, self.case, schedule)? {
            Replayed::Shows => Ok(true),
            Replayed::Hypothesis(_) | Replayed::Holds(_) => Ok(false),
        }
    }

    /// A schedule after those of these steps with which it still violates the obligation. Its only error is out of memory.
    fn after_all(
        &self,
        schedule: Schedule,
        steps: &[Step],
        left: &mut Left,
    ) -> Result<Schedule, NoMemory>
        requires { IsAsked self.now.typed.now.file self.now.case schedule }
        ensures { IfOk result (IsPlainOf self.now.typed.now.file self.now.case schedule) }
    {
        let mut plain = schedule;
        for step in steps {
            if !left.takes(size(&plain)) {
                return Ok(plain);
            }
            let tried = stepped(self.alloc, &plain, *step)?;
            if is_same(&tried, &plain) {
                continue;
            }
            if !left.takes_replay(self.work) {
                return Ok(plain);
            }
            if self.is_violated(&tried)? {
                plain = tried;
                left.keeps();
            }
        }
        Ok(plain)
    }

    /// A schedule after all kinds of steps: an earlier stop, zeros, equal numbers, small ones, and writes that are kept. Its only error is out of memory.
    fn round(&self, schedule: Schedule, left: &mut Left) -> Result<Schedule, NoMemory>
        requires { IsAsked self.now.typed.now.file self.now.case schedule }
        ensures { IfOk result (IsPlainOf self.now.typed.now.file self.now.case schedule) }
    {
        let stops = earlier_stops(self.alloc, &schedule, self.case.layer == 0)?;
        let plain = self.after_all(schedule, stops.as_slice(), left)?;
        let wholes = whole_values(self.alloc, &plain)?;
        let plain = self.after_all(plain, wholes.as_slice(), left)?;
        let numbers = equal_numbers(self.alloc, &plain)?;
        let plain = self.after_all(plain, numbers.as_slice(), left)?;
        let columns = columns_below(self.alloc, &plain)?;
        let plain = self.after_all(plain, columns.as_slice(), left)?;
        let words = single_words(self.alloc, &plain)?;
        let plain = self.after_all(plain, words.as_slice(), left)?;
        let kept = kept_writes(self.alloc, &plain)?;
        self.after_all(plain, kept.as_slice(), left)
    }
}

/// A plain schedule in place of one of an obligation of a file: of the same name, with smaller and equal numbers, an earlier stop and fewer losses, as far as it
/// still violates the obligation. Each step to it is replayed; there are 400 replays at most, and fewer where one is much work. Its only error is out of memory.
pub fn plain(
    alloc: Global,
    typed: &Typed,
    case: Case,
    schedule: Schedule,
) -> Result<Schedule, NoMemory>
    requires { IsAsked typed.now.file case schedule }
    ensures { IfOk result (IsPlainOf typed.now.file case schedule) }
{
    let work = work_of(alloc, typed, case, &schedule)?;
    let plainer = Plainer {
        alloc,
        typed,
        case,
        work,
    };
    let mut left = Left::all();
    let mut plain = schedule;
    for _round in 0..MOST_ROUNDS {
        let kept = left.kept;
        plain = plainer.round(plain, &mut left)?;
        if left.kept == kept {
            return Ok(plain);
        }
    }
    Ok(plain)
}

/// A plain schedule in place of the one that an environment names for the obligation at a place in the file's list. Its only error is out of memory.
pub fn plain_at<B: Book>(
    alloc: Global,
    typed: &Typed,
    place: usize,
    env: &Env,
    book: &B,
) -> Result<Schedule, NoMemory>
    requires there { place < length (claims_of typed.now.file) }
    requires fit { FitsTerms (B.kinds book.now) typed.now.file (inputs_of env.now) }
    // It has a value of its type for each variable that has a line in the schedule's text, and nothing for which there is no line.
    ensures fits { IfOk result (IsFitted typed.now.file place) }
    // The number in its stop can be printed and read again.
    ensures bounded { IfOk result (λ x. IsBounded x.stop) }
    // It violates the obligation where the schedule that the environment names does.
    ensures violates { IfOk result (ViolatesAsNamed (B.kinds book.now) typed.now.file (inputs_of env.now) place) }
{
    let named = schedule_at(alloc, typed, place, env, book)?;
    let case = case_at(alloc, typed, place, book)?;
    plain(alloc, typed, case, named)
}
