//! The text of a script, whole or put as the play goes on.

ghost use Rattle.std.specs.Prelude.{◌≡◌, ◌≤◌, ℕ, List, length, IfOk, IfErr};
ghost use Rattle.ygg_base.specs.Failure.{IfRefused};
ghost use Rattle.ygg_base.specs.Outside.{Rose};
ghost use Rattle.ygg_run.specs.ygg_report.Putting.{Puts};
ghost use Rattle.ygg_run.specs.ygg_script.Fitting.{IsScriptOf};
ghost use Rattle.ygg_run.specs.ygg_run_play.Played.{IsPlay};
ghost use Rattle.ygg_run.specs.Playing.{RefusesPlay, PlaysTo, IsFrontOfPlay};

use crate::gathering::{Gathered, Unheard};
use crate::stacking::play_in_memory;
use std::alloc::Global;
use ygg_base::{Refusal, Refuse, Sink, Status, Text};
use ygg_machine::Typed;
use ygg_run_play::{PlayHalted, Script};

/// The text of the one history that a script of a file names, from a format with which all writes are kept. A script whose stops aren't all reached is refused
/// 44 at the first line `fail` whose stop isn't, column 1; the other error is out of memory.
pub fn play(alloc: Global, typed: &Typed, script: &Script) -> Result<Text, Refuse>
    requires script { IsScriptOf typed.now.file script.now }
    requires few { length script.now ≤ 4294967293 }
    ensures plays { IfOk result (λ text. IsPlay typed.now.file script.now text) }
    ensures refused { IfErr result (λ refuse. IfRefused refuse (RefusesPlay typed.now.file script.now)) }
{
    let mut gathered = Gathered::new(alloc);
    match play_in_memory(alloc, typed, script, &mut gathered) {
        Ok(()) => Ok(gathered.text),
        Err(PlayHalted::Unreached(at)) => Err(Refuse::At(at)),
        Err(PlayHalted::SinkFailed | PlayHalted::Memory) => Err(Refuse::Memory),
    }
}

/// Puts the same text line by line as the play goes on, and says with which status the command ends: done; a fault where the sink fails, or
/// out of memory, where
/// what was put is a front of the text. A script whose stops aren't all reached is refused before anything is put: it is played to its end
/// first with nothing put.
pub fn put_play<K: Sink>(
    alloc: Global,
    typed: &Typed,
    script: &Script,
    sink: &mut K,
) -> Result<Status, Refusal>
    requires script { IsScriptOf typed.now.file script.now }
    requires few { length script.now ≤ 4294967293 }
    ensures put { IfOk result (λ status. Puts (PlaysTo typed.now.file script.now) (IsFrontOfPlay typed.now.file script.now) (K.taken sink.old)
        (K.taken sink.new) (Rose (K.faults sink.old) (K.faults sink.new)) status) }
    ensures refused { IfErr result (RefusesPlay typed.now.file script.now) }
    ensures same { IfErr result (λ refusal. sink.new ≡ sink.old) }
    ensures later { K.faults sink.old ≤ K.faults sink.new }
{
    match play_in_memory(alloc, typed, script, &mut Unheard) {
        Ok(()) => Ok(put_whole(alloc, typed, script, sink)),
        Err(PlayHalted::Unreached(at)) => Err(at),
        Err(PlayHalted::SinkFailed) => unreachable!(),
        Err(PlayHalted::Memory) => Ok(Status::NoMemory),
    }
}

/// The same of a script that has a text.
fn put_whole<K: Sink>(alloc: Global, typed: &Typed, script: &Script, sink: &mut K) -> Status
    requires script { IsScriptOf typed.now.file script.now }
    requires few { length script.now ≤ 4294967293 }
    requires plays { (text : List ℕ) × IsPlay typed.now.file script.now text }
    ensures put { Puts (PlaysTo typed.now.file script.now) (IsFrontOfPlay typed.now.file script.now) (K.taken sink.old) (K.taken sink.new)
        (Rose (K.faults sink.old) (K.faults sink.new)) result }
    ensures later { K.faults sink.old ≤ K.faults sink.new }
{
    match play_in_memory(alloc, typed, script, sink) {
        Ok(()) => Status::Done,
        Err(PlayHalted::Unreached(_)) => unreachable!(),
        Err(PlayHalted::SinkFailed) => Status::Fault,
        Err(PlayHalted::Memory) => Status::NoMemory,
    }
}
