//! The layers are woken, and do what one command says.

ghost use Rattle.std.specs.Prelude.{◌≡◌, ◌≢◌, true, None};
ghost use Rattle.ygg_run.specs.ygg_eval.Lower.{Down, ending_of};
ghost use Rattle.ygg_run.specs.ygg_machine.Viewed.{floor_seen};
ghost use Rattle.ygg_run.specs.ygg_script.Fitting.{IsCallOf, IsTickOf, IsCommandOf};
ghost use Rattle.ygg_run.specs.ygg_script.Plain.{is_plain};
ghost use Rattle.ygg_run.specs.ygg_script.declared.command.Command.TheVariants as command;
ghost use Rattle.ygg_run_commands.specs.Doing.{given_of, AllStand, AllRun, Woke, Did};

use crate::halting::RunHalted;
use std::alloc::Global;
use ygg_base::Bits;
use ygg_list::NoMemory;
use ygg_run::{Command, Floor, Picks, Power, Turn, Typed, Viewed, viewed};
use ygg_value::{Value, Values};

/// Power that doesn't fail, of which nothing is noted.
fn steady(alloc: Global) -> Power
    ensures { result.fuse ≡ None }
{
    Power {
        picks: Picks {
            bits: Bits::new(alloc),
            next: 0,
            past: true,
        },
        fuse: None,
        passed: 0,
        events: None,
    }
}

/// What was given by what ended so, in which power can't fail.
fn given(turned: Result<Turn, NoMemory>) -> Result<Option<Value>, RunHalted>
    requires { ending_of turned ≢ Down }
    ensures { result ≡ given_of (ending_of turned) }
{
    match turned {
        Ok(Turn::Done) => Ok(None),
        Ok(Turn::Answer(answer)) => Ok(Some(answer)),
        Ok(Turn::Failed) => Err(RunHalted::DeviceFailed),
        Ok(Turn::Down) => unreachable!(),
        Err(_) => Err(RunHalted::Memory),
    }
}

/// Wakes all layers of a file, the lowest first. Its errors are that what lies below failed and out of memory.
pub fn wake<W: Viewed + Drop>(
    alloc: Global,
    tower: &mut Floor<W>,
    typed: &Typed,
) -> Result<(), RunHalted>
    requires { AllStand W.seen.means typed.now.file ((floor_seen W.seen).look tower.old) }
    ensures { Woke W.seen.means typed.now.file ((floor_seen W.seen).look tower.old) ((floor_seen W.seen).look tower.new) result }
{
    let mut power = steady(alloc);
    given(viewed::wake(tower, typed, &mut power))?;
    Ok(())
}

/// Calls the operation at a place of the topmost layer, and gives its answer. Its errors are those of `wake`.
fn call<W: Viewed + Drop>(
    alloc: Global,
    tower: &mut Floor<W>,
    typed: &Typed,
    op: u32,
    args: &Values,
) -> Result<Option<Value>, RunHalted>
    requires runs { AllRun W.seen.means typed.now.file ((floor_seen W.seen).look tower.old) }
    requires fits { IsCallOf typed.now.file op args.now }
    ensures { Did W.seen.means typed.now.file ((floor_seen W.seen).look tower.old) ((floor_seen W.seen).look tower.new)
        (command.Call op args.now) result }
{
    let mut power = steady(alloc);
    given(viewed::call(tower, typed, op, args, &mut power))
}

/// Makes the background step at a place of a layer, which gives no answer. Its errors are those of `wake`.
fn tick<W: Viewed + Drop>(
    alloc: Global,
    tower: &mut Floor<W>,
    typed: &Typed,
    layer: u32,
    number: u32,
) -> Result<Option<Value>, RunHalted>
    requires runs { AllRun W.seen.means typed.now.file ((floor_seen W.seen).look tower.old) }
    requires fits { IsTickOf typed.now.file layer number }
    ensures { Did W.seen.means typed.now.file ((floor_seen W.seen).look tower.old) ((floor_seen W.seen).look tower.new)
        (command.Tick layer number) result }
{
    let mut power = steady(alloc);
    given(viewed::tick(tower, typed, layer, number, &mut power))
}

/// Does what a command says, and gives its answer, if it has one. Its errors are those of `wake`.
pub fn run_command<W: Viewed + Drop>(
    alloc: Global,
    tower: &mut Floor<W>,
    typed: &Typed,
    command: &Command,
) -> Result<Option<Value>, RunHalted>
    requires runs { AllRun W.seen.means typed.now.file ((floor_seen W.seen).look tower.old) }
    requires fits { IsCommandOf typed.now.file command.now }
    requires plain { is_plain command.now ≡ true }
    ensures { Did W.seen.means typed.now.file ((floor_seen W.seen).look tower.old) ((floor_seen W.seen).look tower.new) command.now result }
{
    match command {
        Command::Call { op, args } => call(alloc, tower, typed, *op, args),
        Command::Tick { layer, number } => tick(alloc, tower, typed, *layer, *number),
        Command::Lost | Command::Fail { .. } | Command::Keep(_) => unreachable!(),
    }
}
