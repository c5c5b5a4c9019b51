//! Small steps to a plainer schedule.

ghost use Rattle.std.specs.Prelude.{◌≡◌, [], IfOk, None, length};
ghost use Rattle.ygg_plain.specs.Like.{AreLike, IsBounded, IsLike};

use crate::lowering::{Group, Lowering, Words};
use std::alloc::Global;
use ygg_base::Bits;
use ygg_list::NoMemory;
use ygg_replay::{Halt, Schedule};
use ygg_sched::Run;
use ygg_value::{Values, same};

/// A step to a plainer schedule.
#[derive(Clone, Copy, Drop)]
pub enum Step {
    /// Some words become smaller.
    Lower(Lowering),
    /// The pick of a run at a place is that a write is kept.
    Keep(Run, usize),
    /// Power fails here, and the first run has so many picks at most.
    Stop(Halt, usize),
}

/// The same values. Its only error is out of memory.
fn copied(alloc: Global, values: &Values) -> Result<Values, NoMemory>
    ensures { IfOk result (AreLike values.now) }
{
    let none = Lowering {
        words: Words::Equal(0),
        to: 0,
    };
    none.values(alloc, values, Group::State)
}

/// The values of a group after a step. Its only error is out of memory.
fn values_after(
    alloc: Global,
    values: &Values,
    group: Group,
    step: Step,
) -> Result<Values, NoMemory>
    ensures { IfOk result (AreLike values.now) }
{
    let lowering = match step {
        Step::Lower(lowering) => lowering,
        Step::Keep(_, _) | Step::Stop(_, _) => return copied(alloc, values),
    };
    lowering.values(alloc, values, group)
}

/// The stop after a step.
fn stop_after(stop: Option<Halt>, step: Step) -> Option<Halt>
    ensures none { stop ≡ None → result ≡ None }
    ensures bounded { IsBounded stop → IsBounded result }
{
    match (stop, step) {
        (Some(_), Step::Stop(halt, _)) => {
            let event = halt.event;
            Some(Halt {
                within: halt.within,
                event,
            })
        },
        _ => stop,
    }
}

/// Whether two runs are the same.
fn is_same_run(a: Run, b: Run) -> bool {
    matches!(
        (a, b),
        (Run::Picks, Run::Picks) | (Run::Wake, Run::Wake) | (Run::Other, Run::Other)
    )
}

/// Picks of which the one at a place, if there is one, says that a write is kept. Its only error is out of memory.
fn with_kept(alloc: Global, bits: &Bits, place: usize) -> Result<Bits, NoMemory>
    ensures { IfOk result (λ after. length after ≡ length bits.now) }
{
    let mut items = bits.copy(alloc)?.into_vec();
    if let Some(bit) = items.get_mut(place) {
        *bit = true;
    }
    Ok(Bits::from_vec(items))
}

/// The first picks, so many at most. Its only error is out of memory.
fn first_bits(alloc: Global, bits: &Bits, most: usize) -> Result<Bits, NoMemory>
    ensures { bits.now ≡ [] → IfOk result (λ after. after ≡ []) }
{
    let all = bits.as_slice();
    if most < all.len() {
        return Bits::from_slice(alloc, &all[..most]);
    }
    bits.copy(alloc)
}

/// The picks of a run after a step. Its only error is out of memory.
fn bits_after(alloc: Global, bits: &Bits, run: Run, step: Step) -> Result<Bits, NoMemory>
    ensures { bits.now ≡ [] → IfOk result (λ after. after ≡ []) }
{
    match (step, run) {
        (Step::Keep(of, place), _) if is_same_run(of, run) => with_kept(alloc, bits, place),
        (Step::Stop(_, most), Run::Picks) => first_bits(alloc, bits, most),
        _ => bits.copy(alloc),
    }
}

/// A schedule after a step. Its only error is out of memory.
pub fn stepped(alloc: Global, schedule: &Schedule, step: Step) -> Result<Schedule, NoMemory>
    ensures { IfOk result (IsLike schedule.now) }
{
    let name = schedule.name.copy(alloc)?;
    let state = values_after(alloc, &schedule.state, Group::State, step)?;
    let memory = values_after(alloc, &schedule.memory, Group::Memory, step)?;
    let low = values_after(alloc, &schedule.low, Group::Low, step)?;
    let args = values_after(alloc, &schedule.args, Group::Arguments, step)?;
    let picks = bits_after(alloc, &schedule.picks, Run::Picks, step)?;
    let wake = bits_after(alloc, &schedule.wake, Run::Wake, step)?;
    let other = bits_after(alloc, &schedule.other, Run::Other, step)?;
    Ok(Schedule {
        name,
        state,
        memory,
        low,
        args,
        stop: stop_after(schedule.stop, step),
        picks,
        wake,
        other,
    })
}

/// Whether these values are the same.
fn are_same(a: &Values, b: &Values) -> bool {
    if a.len() != b.len() {
        return false;
    }
    for (i, value) in a.as_slice().iter().enumerate() {
        if !same(value, b.at(i)) {
            return false;
        }
    }
    true
}

/// Whether two stops are the same.
fn is_same_stop(a: Option<Halt>, b: Option<Halt>) -> bool {
    match (a, b) {
        (None, None) => true,
        (Some(a), Some(b)) => a.within == b.within && a.event == b.event,
        _ => false,
    }
}

/// Whether a step has changed nothing of a schedule.
pub fn is_same(a: &Schedule, b: &Schedule) -> bool {
    are_same(&a.state, &b.state)
        && are_same(&a.memory, &b.memory)
        && are_same(&a.low, &b.low)
        && are_same(&a.args, &b.args)
        && is_same_stop(a.stop, b.stop)
        && a.picks.as_slice() == b.picks.as_slice()
        && a.wake.as_slice() == b.wake.as_slice()
        && a.other.as_slice() == b.other.as_slice()
}
