//! What a machine does by one line, with the stop that follows it.

ghost use Rattle.std.specs.Prelude.{◌≡◌, ◌<◌, ◌^◌, ◌++◌, [], Some, IfOk, IfErr, OnOk, MatchOption};
ghost use Rattle.ygg_syntax.specs.declared.tree.File.{File};
ghost use Rattle.ygg_run_play.specs.ygg_disk.declared.power.Power as ghost_power;
ghost use Rattle.ygg_run_play.specs.ygg_meaning.Environments.{Env};
ghost use Rattle.ygg_run_play.specs.ygg_meaning.Machine.{State};
ghost use Rattle.ygg_run_play.specs.ygg_report.Lines.{ended};
ghost use Rattle.ygg_run_play.specs.Scene.{Deed, Ends, After};
ghost use Rattle.ygg_run_play.specs.Doing.{left_of, IsReady, CutsAfterAll, Counted, Missed, IsHalted, IsStopped, command_end, waking_end};

use crate::halting::PlayHalted;
use crate::scene::{CommandOutcome, Scene};
use crate::{put_answer, put_down, put_events, put_up, unreached};
use std::alloc::Global;
use ygg_base::Text;
use ygg_list::NoMemory;
use ygg_script::{Event, Events, Fuse, Power};

/// Makes power ready for what a line does: it fails where the stop says that follows the line, if one does, and disk calls are counted and shown anew.
pub fn make_ready(alloc: Global, power: &mut Power, stop: Option<Fuse>)
    ensures passed { power.new.passed ≡ 0 }
    ensures events { power.new.events ≡ Some [] }
    ensures fuse { power.new.fuse ≡ stop }
    ensures picks { power.new.picks ≡ power.old.picks }
{
    power.fuse = stop;
    power.passed = 0;
    power.events = Some(Events::new(alloc));
}

/// The disk calls that are shown.
fn calls_of(power: &Power) -> &[Event]
    ensures { MatchOption power.now.events (result.now ≡ []) (λ events. result.now ≡ events) }
{
    match &power.events {
        Some(events) => events.as_slice(),
        None => &[],
    }
}

/// What becomes of a machine with which it ended so after that many disk calls. Where a stop is set, power has failed there, or it fails now, after the last
/// disk call; of a stop that isn't reached there is nothing to say.
fn stopped<S: Scene>(
    scene: &mut S,
    outcome: CommandOutcome,
    stop: Option<Fuse>,
    calls: u64,
) -> Option<CommandOutcome>
    ensures stopped { (f : File) → IsStopped stop calls outcome result (scene.new ≡ scene.old)
        (S.runs f scene.old → (S.machine f).Loses (S.state f scene.old) [] (S.state f scene.new).base × S.stands f scene.new) }
    ensures few { calls < 2 ^ 64 }
{
    let Some(stop) = stop else {
        return Some(outcome);
    };
    match outcome {
        CommandOutcome::Down => Some(CommandOutcome::Down),
        CommandOutcome::Whole(_) => {
            if stop.within || stop.call != calls {
                return None;
            }
            scene.lose();
            Some(CommandOutcome::Down)
        }
    }
}

/// What became of what a machine did that ended so, whose disk calls are added to the lines. A stop that isn't reached, on the line of this number, is refused
/// 44; the other error is out of memory.
pub fn counted<S: Scene>(
    alloc: Global,
    scene: &mut S,
    outcome: CommandOutcome,
    power: &Power,
    line: u32,
    lines: &mut Text,
) -> Result<CommandOutcome, PlayHalted>
    ensures counted { (f : File) (deed : Deed) (from : State Env) (before : ghost_power.Power) → CutsAfterAll (S.machine f) deed → IsReady before →
        Ends (S.machine f) deed from before outcome (S.state f scene.old) power.now → After outcome (S.runs f scene.old) (S.stands f scene.old) →
        IfOk result (Counted (S.machine f) deed before.fuse from (left_of before.picks) power.now (S.state f scene.new) (S.runs f scene.new)
        (S.stands f scene.new) lines.old lines.new) }
    ensures halted { (f : File) (deed : Deed) (from : State Env) (before : ghost_power.Power) → IsReady before →
        Ends (S.machine f) deed from before outcome (S.state f scene.old) power.now →
        IfErr result (IsHalted (Missed (S.machine f) deed before.fuse from (left_of before.picks)) line) }
{
    let calls = calls_of(power);
    let Some(outcome) = stopped(scene, outcome, power.fuse, calls.len() as u64) else {
        return Err(PlayHalted::Unreached(unreached(line)));
    };
    match put_events(alloc, lines, calls) {
        Ok(()) => Ok(outcome),
        Err(_) => Err(PlayHalted::Memory),
    }
}

/// Adds the line that ends a command: its answer, `done`, or `down` where power failed. Its only error is out of memory.
pub fn end_command(alloc: Global, outcome: CommandOutcome, lines: &mut Text) -> Result<(), NoMemory>
    ensures { OnOk result (lines.new ≡ lines.old ++ ended (command_end outcome)) }
{
    match outcome {
        CommandOutcome::Whole(answer) => put_answer(alloc, lines, answer.as_ref()),
        CommandOutcome::Down => put_down(lines),
    }
}

/// Adds the line that ends a waking: `up`, or `down` where power failed. Its only error is out of memory.
pub fn end_waking(outcome: CommandOutcome, lines: &mut Text) -> Result<(), NoMemory>
    ensures { OnOk result (lines.new ≡ lines.old ++ ended (waking_end outcome)) }
{
    match outcome {
        CommandOutcome::Whole(_) => put_up(lines),
        CommandOutcome::Down => put_down(lines),
    }
}
