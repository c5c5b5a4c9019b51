//! All commands of a script are run, and their lines put as they are done.

ghost use Rattle.std.specs.Prelude.{◌≡◌, ◌≤◌, true, None, IfOk};
ghost use Rattle.ygg_base.specs.Outside.{Rose};
ghost use Rattle.ygg_run.specs.ygg_machine.Viewed.{floor_seen};
ghost use Rattle.ygg_run.specs.ygg_report.Lines.{ended};
ghost use Rattle.ygg_run.specs.ygg_script.Fitting.{IsCommandOf, IsScriptOf};
ghost use Rattle.ygg_run.specs.ygg_script.Plain.{is_plain, plain_of};
ghost use Rattle.ygg_run.specs.ygg_run_play.Lines.{answer_text};
ghost use Rattle.ygg_run_commands.specs.Ran.{ran_line};
ghost use Rattle.ygg_run_commands.specs.OnGround.{layers_on};
ghost use Rattle.ygg_run_commands.specs.Running.{IsRun};
ghost use Rattle.ygg_run_commands.specs.Doing.{IsPut, AllStand, AllRun, FaultsRose, Answered};

use crate::doing::{run_command, wake};
use crate::halting::RunHalted;
use std::alloc::Global;
use ygg_base::{Sink, Text};
use ygg_list::NoMemory;
use ygg_run::{Command, Floor, Typed, Viewed, put, put_answer};
use ygg_value::Value;

/// Puts a text. Its only error is that the sink failed.
fn put_text<K: Sink>(sink: &mut K, text: &[u8]) -> Result<(), RunHalted>
    ensures put { IsPut text.now (K.taken sink.old) (K.taken sink.new) (Rose (K.faults sink.old) (K.faults sink.new)) result }
    ensures later { K.faults sink.old ≤ K.faults sink.new }
{
    match put(sink, text) {
        Ok(()) => Ok(()),
        Err(_) => Err(RunHalted::SinkFailed),
    }
}

/// The line of a command that gave this: `answer VALUE`, or `done` where there is no answer. Its only error is out of memory.
fn answer_line(alloc: Global, answer: Option<Value>) -> Result<Text, NoMemory>
    ensures { IfOk result (λ line. line ≡ ended (answer_text answer)) }
{
    let mut line = Text::new(alloc);
    put_answer(alloc, &mut line, answer.as_ref())?;
    Ok(line)
}

/// Does what a command says, and puts its line.
fn answer<W: Viewed + Drop, K: Sink>(
    alloc: Global,
    tower: &mut Floor<W>,
    typed: &Typed,
    next: &Command,
    sink: &mut K,
) -> Result<(), RunHalted>
    requires runs { AllRun W.seen.means typed.now.file ((floor_seen W.seen).look tower.old) }
    requires fits { IsCommandOf typed.now.file next.now }
    requires plain { is_plain next.now ≡ true }
    ensures answered { Answered W.seen.means typed.now.file ((floor_seen W.seen).look tower.old) ((floor_seen W.seen).look tower.new) next.now
        (K.taken sink.old) (K.taken sink.new) (Rose (K.faults sink.old) (K.faults sink.new)) result }
    ensures later { K.faults sink.old ≤ K.faults sink.new }
{
    let given = run_command(alloc, tower, typed, next)?;
    let line = answer_line(alloc, given)?;
    put_text(sink, line.as_slice())
}

/// Puts the last line: how many commands were run.
fn put_ran<K: Sink>(alloc: Global, count: usize, sink: &mut K) -> Result<(), RunHalted>
    ensures put { IsPut (ran_line count) (K.taken sink.old) (K.taken sink.new) (Rose (K.faults sink.old) (K.faults sink.new)) result }
    ensures later { K.faults sink.old ≤ K.faults sink.new }
{
    match format!(in alloc; "ran {count}\n") {
        Ok(line) => put_text(sink, line.as_bytes()),
        Err(_) => Err(RunHalted::Memory),
    }
}

/// Wakes the layers of a file and puts `up`, runs the commands of a script and puts the answer of each when it is done, and puts `ran N`. Where what lies
/// below the layers failed, the lines of all that was whole have been put; where the sink failed or no memory was left, a front of such lines.
pub fn run_on<W: Viewed + Drop, K: Sink>(
    alloc: Global,
    tower: &mut Floor<W>,
    typed: &Typed,
    script: &[Command],
    sink: &mut K,
) -> Result<(), RunHalted>
    requires stands { AllStand W.seen.means typed.now.file ((floor_seen W.seen).look tower.old) }
    requires script { IsScriptOf typed.now.file script.now }
    requires plain { plain_of script.now ≡ None }
    ensures run { IsRun (layers_on W.seen.means typed.now.file) typed.now.file script.now ((floor_seen W.seen).look tower.old).base
        ((floor_seen W.seen).look tower.new).base (K.taken sink.old) (K.taken sink.new)
        (FaultsRose W.seen.means typed.now.file ((floor_seen W.seen).look tower.old) ((floor_seen W.seen).look tower.new))
        (Rose (K.faults sink.old) (K.faults sink.new)) result }
    ensures later_ground { W.seen.means.faults ((floor_seen W.seen).look tower.old).base ≤ W.seen.means.faults ((floor_seen W.seen).look tower.new).base }
    ensures later { K.faults sink.old ≤ K.faults sink.new }
{
    wake(alloc, tower, typed)?;
    put_text(sink, b"up\n")?;
    let mut rest = script;
    while let Some((next, after)) = rest.split_first() {
        answer(alloc, tower, typed, next, sink)?;
        rest = after;
    }
    put_ran(alloc, script.len(), sink)
}
