//! A script played line by line, whose lines are put as it goes on.

ghost use Rattle.std.specs.Prelude.{◌≡◌, ◌≤◌, [], length, false, true, None, IfOk, is_some};
ghost use Rattle.ygg_base.specs.Outside.{Rose};
ghost use Rattle.ygg_run_play.specs.ygg_script.Fitting.{IsCommandOf, IsScriptOf};
ghost use Rattle.ygg_run_play.specs.ygg_script.Reading.{is_stoppable};
ghost use Rattle.std.specs.List.{count_by};
ghost use Rattle.ygg_run_play.specs.Named.{stop_after};
ghost use Rattle.ygg_run_play.specs.Lines.{is_played, played_line};
ghost use Rattle.ygg_run_play.specs.Doing.{left_of, Holds, ArePut, StepEnds, standing, is_fail};
ghost use Rattle.ygg_run_play.specs.Playing.{IsPlayed, ArePlayed};

use crate::deed::make_ready;
use crate::halting::PlayHalted;
use crate::line::do_line;
use crate::scene::Scene;
use crate::{played, put_played};
use std::alloc::Global;
use ygg_base::{Bits, Sink, Text};
use ygg_script::{Command, Fuse, Picks, Power, Script, Typed, put};

/// The stop that the next of these lines sets for the one before it, if that is a line `fail`.
fn stop_in(rest: &[Command]) -> Option<Fuse>
    ensures { result ≡ stop_after rest.now }
{
    match rest {
        [] => None,
        [Command::Fail { within, call }, ..] => Some(Fuse {
            within: *within,
            call: *call,
        }),
        _ => None,
    }
}

/// Puts these lines.
fn put_lines<K: Sink>(sink: &mut K, lines: &Text) -> Result<(), PlayHalted>
    ensures put { ArePut lines.now (K.taken sink.old) (K.taken sink.new) (Rose (K.faults sink.old) (K.faults sink.new)) result }
    ensures later { K.faults sink.old ≤ K.faults sink.new }
{
    match put(sink, lines.as_slice()) {
        Ok(()) => Ok(()),
        Err(_) => Err(PlayHalted::SinkFailed),
    }
}

/// Does what a line says, which these follow, and puts its lines. The stop after it, on the line of this number, is refused 44 where it isn't reached.
fn step<S: Scene, K: Sink>(
    alloc: Global,
    scene: &mut S,
    typed: &Typed,
    command: &Command,
    rest: &[Command],
    line: u32,
    power: &mut Power,
    sink: &mut K,
) -> Result<(), PlayHalted>
    requires fits { IsCommandOf typed.now.file command.now }
    requires past { power.old.picks.past ≡ true }
    requires stop { is_stoppable command.now ≡ false → stop_after rest.now ≡ None }
    requires holds { Holds (is_fail command.now) (S.runs typed.now.file scene.old) (S.stands typed.now.file scene.old) }
    ensures ends { StepEnds (S.machine typed.now.file) typed.now.file command.now (stop_after rest.now) line power.old.picks power.new.picks
        (standing (is_fail command.now) (S.state typed.now.file scene.old)) (S.state typed.now.file scene.new) (K.taken sink.old) (K.taken sink.new)
        (Rose (K.faults sink.old) (K.faults sink.new)) result }
    ensures past { IfOk result (λ done. power.new.picks.past ≡ true) }
    ensures holds { IfOk result (λ done. Holds (is_some (stop_after rest.now)) (S.runs typed.now.file scene.new) (S.stands typed.now.file scene.new)) }
    ensures later { K.faults sink.old ≤ K.faults sink.new }
{
    make_ready(alloc, power, stop_in(rest));
    let mut lines = Text::new(alloc);
    do_line(alloc, scene, typed, command, line, power, &mut lines)?;
    put_lines(sink, &lines)
}

/// Plays the lines of a script, the first of which is the second of its text, on a machine that runs.
fn play_lines<S: Scene, K: Sink>(
    alloc: Global,
    scene: &mut S,
    typed: &Typed,
    script: &[Command],
    power: &mut Power,
    sink: &mut K,
) -> Result<(), PlayHalted>
    requires script { IsScriptOf typed.now.file script.now }
    requires few { length script.now ≤ 4294967293 }
    requires past { power.old.picks.past ≡ true }
    requires none { left_of power.old.picks ≡ [] }
    requires runs { S.runs typed.now.file scene.old }
    ensures played { ArePlayed (S.machine typed.now.file) typed.now.file script.now (S.state typed.now.file scene.old) (K.taken sink.old) (K.taken sink.new)
        (Rose (K.faults sink.old) (K.faults sink.new)) result }
    ensures later { K.faults sink.old ≤ K.faults sink.new }
{
    let mut rest = script;
    let mut line = 2;
    while let Some((command, after)) = rest.split_first() {
        step(alloc, scene, typed, command, after, line + 1, power, sink)?;
        rest = after;
        line += 1;
    }
    Ok(())
}

/// Puts the last line: how many lines of the script were played.
fn put_end<K: Sink>(alloc: Global, script: &[Command], sink: &mut K) -> Result<(), PlayHalted>
    ensures put { ArePut (played_line (count_by is_played script.now)) (K.taken sink.old) (K.taken sink.new)
        (Rose (K.faults sink.old) (K.faults sink.new)) result }
    ensures later { K.faults sink.old ≤ K.faults sink.new }
{
    let mut lines = Text::new(alloc);
    put_played(alloc, &mut lines, played(script))?;
    put_lines(sink, &lines)
}

/// Power that doesn't fail, with which all writes are kept.
fn steady(alloc: Global) -> Power
    ensures past { result.picks.past ≡ true }
    ensures none { left_of result.picks ≡ [] }
    ensures fuse { result.fuse ≡ None }
{
    Power {
        picks: Picks {
            bits: Bits::new(alloc),
            next: 0,
            past: true,
        },
        fuse: None,
        passed: 0,
        events: None,
    }
}

/// Formats a machine of a file and plays a script of the file on it, whose lines are put line by line. A stop that isn't reached is refused
/// 44 at its line, after
/// the lines before the one that it stops; where the sink fails or no memory is left, it has taken a front of the text.
pub fn play_on<S: Scene, K: Sink>(
    alloc: Global,
    scene: &mut S,
    typed: &Typed,
    script: &Script,
    sink: &mut K,
) -> Result<(), PlayHalted>
    requires fresh { S.fresh typed.now.file scene.old }
    requires script { IsScriptOf typed.now.file script.now }
    requires few { length script.now ≤ 4294967293 }
    ensures played { IsPlayed (S.machine typed.now.file) typed.now.file script.now (K.taken sink.old) (K.taken sink.new)
        (Rose (K.faults sink.old) (K.faults sink.new)) result }
    ensures later { K.faults sink.old ≤ K.faults sink.new }
{
    let mut power = steady(alloc);
    scene.format(typed, &mut power)?;
    play_lines(alloc, scene, typed, script.as_slice(), &mut power, sink)?;
    put_end(alloc, script.as_slice(), sink)
}
