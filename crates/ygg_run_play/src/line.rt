//! What a machine does by each kind of line.

ghost use Rattle.std.specs.Prelude.{◌≡◌, ℕ, Bool, false, true, None, IfOk, IfErr};
ghost use Rattle.ygg_run_play.specs.ygg_script.declared.command.Command.TheVariants as command;
ghost use Rattle.ygg_run_play.specs.ygg_script.Fitting.{IsCallOf, IsTickOf, IsCommandOf};
ghost use Rattle.ygg_run_play.specs.ygg_script.Reading.{is_stoppable};
ghost use Rattle.ygg_run_play.specs.declared.halting.PlayHalted.TheVariants as halted;
ghost use Rattle.ygg_run_play.specs.Doing.{IsReady, LineEnds, Holds, standing, is_fail};

use crate::deed::{counted, end_command, end_waking};
use crate::halting::PlayHalted;
use crate::put_down;
use crate::scene::Scene;
use std::alloc::Global;
use ygg_base::{Bits, Text};
use ygg_list::NoMemory;
use ygg_script::{Command, Power, Typed};
use ygg_value::Values;

impl From<NoMemory> for PlayHalted {
    ghost use Rattle.std.specs.Prelude.{◌≡◌};
    ghost use Rattle.ygg_run_play.specs.declared.halting.PlayHalted.TheVariants as halted;

    ghost from_gives = { λ error made. made ≡ halted.Memory };

    fn from(_error: NoMemory) -> PlayHalted {
        PlayHalted::Memory
    }
}

/// The line `call`.
fn call<S: Scene>(
    alloc: Global,
    scene: &mut S,
    typed: &Typed,
    op: u32,
    args: &Values,
    line: u32,
    power: &mut Power,
    lines: &mut Text,
) -> Result<(), PlayHalted>
    requires fits { IsCallOf typed.now.file op args.now }
    requires ready { IsReady power.old }
    requires runs { S.runs typed.now.file scene.old }
    ensures { LineEnds (S.machine typed.now.file) typed.now.file (command.Call op args.now) line power.old power.new
        (standing false (S.state typed.now.file scene.old)) (S.state typed.now.file scene.new) (S.runs typed.now.file scene.new)
        (S.stands typed.now.file scene.new) lines.old lines.new result }
{
    let outcome = scene.call(typed, op, args, power)?;
    let outcome = counted(alloc, scene, outcome, power, line, lines)?;
    end_command(alloc, outcome, lines)?;
    Ok(())
}

/// The line `tick`.
fn tick<S: Scene>(
    alloc: Global,
    scene: &mut S,
    typed: &Typed,
    layer: u32,
    number: u32,
    line: u32,
    power: &mut Power,
    lines: &mut Text,
) -> Result<(), PlayHalted>
    requires fits { IsTickOf typed.now.file layer number }
    requires ready { IsReady power.old }
    requires runs { S.runs typed.now.file scene.old }
    ensures { LineEnds (S.machine typed.now.file) typed.now.file (command.Tick layer number) line power.old power.new
        (standing false (S.state typed.now.file scene.old)) (S.state typed.now.file scene.new) (S.runs typed.now.file scene.new)
        (S.stands typed.now.file scene.new) lines.old lines.new result }
{
    let outcome = scene.tick(typed, layer, number, power)?;
    let outcome = counted(alloc, scene, outcome, power, line, lines)?;
    end_command(alloc, outcome, lines)?;
    Ok(())
}

/// What follows power failing: the machine is woken.
fn wake<S: Scene>(
    alloc: Global,
    scene: &mut S,
    typed: &Typed,
    line: u32,
    power: &mut Power,
    lines: &mut Text,
) -> Result<(), PlayHalted>
    requires ready { IsReady power.old }
    requires stands { S.stands typed.now.file scene.old }
    ensures { (within : Bool) (call : ℕ) → LineEnds (S.machine typed.now.file) typed.now.file (command.Fail within call) line power.old power.new
        (standing true (S.state typed.now.file scene.old)) (S.state typed.now.file scene.new) (S.runs typed.now.file scene.new)
        (S.stands typed.now.file scene.new) lines.old lines.new result }
{
    let outcome = scene.wake(typed, power)?;
    let outcome = counted(alloc, scene, outcome, power, line, lines)?;
    end_waking(outcome, lines)?;
    Ok(())
}

/// The line `lost`.
fn lost<S: Scene>(
    alloc: Global,
    scene: &mut S,
    typed: &Typed,
    line: u32,
    power: &mut Power,
    lines: &mut Text,
) -> Result<(), PlayHalted>
    requires ready { IsReady power.old }
    requires runs { S.runs typed.now.file scene.old }
    ensures { LineEnds (S.machine typed.now.file) typed.now.file (command.Lost) line power.old power.new
        (standing false (S.state typed.now.file scene.old)) (S.state typed.now.file scene.new) (S.runs typed.now.file scene.new)
        (S.stands typed.now.file scene.new) lines.old lines.new result }
{
    scene.lose();
    put_down(lines)?;
    wake(alloc, scene, typed, line, power, lines)
}

/// The line `keep`: these picks take the place of those that are left. Its only error is out of memory.
fn keep(alloc: Global, picks: &Bits, power: &mut Power) -> Result<(), PlayHalted>
    ensures kept { IfOk result (λ done. power.new ≡ record power.old { picks = record { bits = picks.now; next = 0; past = power.old.picks.past } }) }
    ensures memory { IfErr result (λ error. error ≡ halted.Memory) }
{
    power.picks.bits = picks.copy(alloc)?;
    power.picks.next = 0;
    Ok(())
}

/// Does what a line says, with power ready for it, and adds its lines. The stop after it, on the line of this number, is refused 44 where it isn't reached; the
/// other error is out of memory.
pub fn do_line<S: Scene>(
    alloc: Global,
    scene: &mut S,
    typed: &Typed,
    command: &Command,
    line: u32,
    power: &mut Power,
    lines: &mut Text,
) -> Result<(), PlayHalted>
    requires fits { IsCommandOf typed.now.file command.now }
    requires ready { IsReady power.old }
    requires stop { is_stoppable command.now ≡ false → power.old.fuse ≡ None }
    requires holds { Holds (is_fail command.now) (S.runs typed.now.file scene.old) (S.stands typed.now.file scene.old) }
    ensures { LineEnds (S.machine typed.now.file) typed.now.file command.now line power.old power.new
        (standing (is_fail command.now) (S.state typed.now.file scene.old)) (S.state typed.now.file scene.new) (S.runs typed.now.file scene.new)
        (S.stands typed.now.file scene.new) lines.old lines.new result }
{
    match command {
        Command::Call { op, args } => call(alloc, scene, typed, *op, args, line, power, lines),
        Command::Tick { layer, number } => {
            tick(alloc, scene, typed, *layer, *number, line, power, lines)
        }
        Command::Lost => lost(alloc, scene, typed, line, power, lines),
        Command::Fail { .. } => wake(alloc, scene, typed, line, power, lines),
        Command::Keep(picks) => keep(alloc, picks, power),
    }
}
