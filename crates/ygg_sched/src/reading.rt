//! From a text to the schedule that it is for a file.

ghost use Rattle.std.specs.Prelude.{◌≡◌, ◌≤◌, ◌∷◌, ◌++◌, [], length, IfOk, IfErr, OnOk};
ghost use Rattle.ygg_meaning.specs.Stack.{tables_of};
ghost use Rattle.ygg_sched.specs.Lines.{left_of, Gives};
ghost use Rattle.ygg_sched.specs.Sites.{site_in, low_in};
ghost use Rattle.ygg_sched.specs.Fitting.{IsScheduleOf};
ghost use Rattle.ygg_sched.specs.Reading.{
  variables_at,
  stop_if,
  bits_if,
  valued,
  values_at,
  runs_of,
  runs_at,
  body_at,
  schedule_of,
};

use crate::claim::{Claim, Low};
use crate::lines::{bits_line, fixed_line, nothing, obligation_line, stop_line, variable_line};
use crate::rest::Rest;
use crate::schedule::{Halt, Schedule};
use std::alloc::Global;
use ygg_base::{Bits, DiskKind, Refuse, Text};
use ygg_syntax::tree::{Declared, DiskText, TypeText};
use ygg_type::Typed;
use ygg_value::{Value, Values};

/// Adds a value.
fn add(values: &mut Values, value: Value) -> Result<(), Refuse>
    ensures ok { OnOk result (values.new ≡ values.old ++ value ∷ []) }
    ensures memory { IfErr result (λ refuse. refuse ≡ Refuse.Memory) }
{
    match values.push(value) {
        Ok(()) => Ok(()),
        Err(_) => Err(Refuse::Memory),
    }
}

/// The lines of these variables, in order.
fn variable_lines<'a>(
    alloc: Global,
    at: Rest<'a>,
    word: &[u8],
    declared: &[Declared],
) -> Result<(Values, Rest<'a>), Refuse>
    ensures { Gives (λ x. (x.0, left_of x.1)) result (variables_at word.now declared.now (left_of at.entry)) }
{
    let mut values = Values::new(alloc);
    let mut rest = at;
    for variable in declared {
        let name = variable.name.text.as_slice();
        let (value, after) = variable_line(alloc, rest, word, name, variable.shape)?;
        add(&mut values, value)?;
        rest = after;
    }
    Ok((values, rest))
}

/// The lines of a disk's tables.
#[tactic(auto, unfolding(crate::specs::Reading::variables_at))]
fn table_lines<'a>(
    alloc: Global,
    at: Rest<'a>,
    word: &[u8],
    disk: DiskText,
) -> Result<(Values, Rest<'a>), Refuse>
    ensures { Gives (λ x. (x.0, left_of x.1)) result (variables_at word.now (tables_of disk) (left_of at.entry)) }
{
    let table = TypeText::Table(disk.rows, disk.words, disk.width);
    let mut values = Values::new(alloc);
    let (view, at) = variable_line(alloc, at, word, b"view", table)?;
    add(&mut values, view)?;
    match disk.kind {
        DiskKind::Sync => Ok((values, at)),
        DiskKind::Async => {
            let (stable, at) = variable_line(alloc, at, word, b"stable", table)?;
            add(&mut values, stable)?;
            Ok((values, at))
        }
    }
}

/// The lines of the variables that `low` names.
fn low_lines<'a>(
    alloc: Global,
    at: Rest<'a>,
    word: &[u8],
    low: Low<'_>,
) -> Result<(Values, Rest<'a>), Refuse>
    ensures { Gives (λ x. (x.0, left_of x.1)) result (variables_at word.now (low_in low.entry) (left_of at.entry)) }
{
    match low {
        Low::Disk(disk) => table_lines(alloc, at, word, disk),
        Low::Variables(declared) => variable_lines(alloc, at, word, declared),
    }
}

/// The line of the stop, where there is one.
#[tactic(auto, unfolding(crate::specs::Reading::stop_if))]
fn stop_if(at: Rest<'_>, there: bool) -> Result<(Option<Halt>, Rest<'_>), Refuse>
    ensures { Gives (λ x. (x.0, left_of x.1)) result (stop_if there (left_of at.entry)) }
{
    if there {
        let (halt, at) = stop_line(at)?;
        Ok((Some(halt), at))
    } else {
        Ok((None, at))
    }
}

/// A line of picks, where there is one.
#[tactic(auto, unfolding(crate::specs::Reading::bits_if))]
fn bits_if<'a>(
    alloc: Global,
    at: Rest<'a>,
    word: &[u8],
    there: bool,
) -> Result<(Bits, Rest<'a>), Refuse>
    ensures { Gives (λ x. (x.0, left_of x.1)) result (bits_if there word.now (left_of at.entry)) }
{
    if there {
        bits_line(alloc, at, word)
    } else {
        Ok((Bits::new(alloc), at))
    }
}

/// The values that a schedule has.
#[derive(Drop)]
struct ValuesRead {
    state: Values,
    memory: Values,
    low: Values,
    args: Values,
}

/// The lines of values.
#[tactic(auto, unfolding(crate::specs::Reading::values_at))]
fn value_lines<'a>(
    alloc: Global,
    at: Rest<'a>,
    claim: Claim<'_>,
) -> Result<(ValuesRead, Rest<'a>), Refuse>
    ensures { Gives (λ x. (valued x.0, left_of x.1)) result (values_at (site_in claim.entry) (left_of at.entry)) }
{
    let (state, at) = variable_lines(alloc, at, b"state ", claim.state())?;
    let (memory, at) = variable_lines(alloc, at, b"memory ", claim.memory())?;
    let (low, at) = low_lines(alloc, at, b"low ", claim.low())?;
    let (args, at) = variable_lines(alloc, at, b"arg ", claim.arguments())?;
    let read = ValuesRead {
        state,
        memory,
        low,
        args,
    };
    Ok((read, at))
}

/// How the runs of a schedule go.
#[derive(Drop)]
struct RunsRead {
    stop: Option<Halt>,
    picks: Bits,
    wake: Bits,
    other: Bits,
}

/// The lines of runs.
#[tactic(auto, unfolding(crate::specs::Reading::runs_at))]
fn run_lines<'a>(
    alloc: Global,
    at: Rest<'a>,
    claim: Claim<'_>,
) -> Result<(RunsRead, Rest<'a>), Refuse>
    ensures { Gives (λ x. (runs_of x.0, left_of x.1)) result (runs_at (site_in claim.entry) (left_of at.entry)) }
{
    let obligation = claim.obligation;
    let (stop, at) = stop_if(at, obligation.has_stop())?;
    let (picks, at) = bits_line(alloc, at, b"picks ")?;
    let (wake, at) = bits_if(alloc, at, b"wake ", obligation.has_wake())?;
    let (other, at) = bits_if(alloc, at, b"other ", obligation.has_other())?;
    let read = RunsRead {
        stop,
        picks,
        wake,
        other,
    };
    Ok((read, at))
}

/// The lines up to `end`, after which nothing may follow.
#[tactic(auto, unfolding(crate::specs::Reading::body_at))]
fn schedule_lines(
    alloc: Global,
    at: Rest<'_>,
    name: &[u8],
    claim: Claim<'_>,
) -> Result<Schedule, Refuse>
    ensures { Gives (λ x. x) result (body_at name.now (site_in claim.entry) (left_of at.entry)) }
{
    let (values, at) = value_lines(alloc, at, claim)?;
    let (runs, at) = run_lines(alloc, at, claim)?;
    let at = fixed_line(at, b"end")?;
    nothing(at)?;
    let Ok(name) = Text::from_slice(alloc, name) else {
        return Err(Refuse::Memory);
    };
    Ok(Schedule {
        name,
        state: values.state,
        memory: values.memory,
        low: values.low,
        args: values.args,
        stop: runs.stop,
        picks: runs.picks,
        wake: runs.wake,
        other: runs.other,
    })
}

/// What `read_schedule` does.
#[tactic(auto, unfolding(crate::specs::Reading::schedule_of))]
fn schedule_in(alloc: Global, text: &[u8], typed: &Typed) -> Result<Schedule, Refuse>
    requires { length text.now ≤ 67108864 }
    ensures { Gives (λ x. x) result (schedule_of typed.now.file text.now) }
{
    let at = Rest {
        bytes: text,
        line: 1,
    };
    let at = fixed_line(at, b"ygg-schedule 1")?;
    let (name, claim, at) = obligation_line(at, typed.file())?;
    schedule_lines(alloc, at, name, claim)
}

/// The schedule that a text is for a file. A text that is none is refused at its first line that is at fault, column 1: 34 where the text
/// ends before that line's line feed, 31 where the line isn't of the form that stands there or follows `end`, 32 where its obligation or
/// variable isn't the one that stands there, and 33 where its value hasn't the variable's shape. The other error is out of memory.
pub fn read_schedule(alloc: Global, text: &[u8], typed: &Typed) -> Result<Schedule, Refuse>
    requires { length text.now ≤ 67108864 }
    // It is the schedule that the text is, or the refusal of the first line that is at fault.
    ensures exact { Gives (λ x. x) result (schedule_of typed.now.file text.now) }
    // It names one of the file's obligations, and has a value of its type for each variable that has a line.
    ensures fits { IfOk result (λ x. IsScheduleOf typed.now.file x) }
{
    schedule_in(alloc, text, typed)
}
