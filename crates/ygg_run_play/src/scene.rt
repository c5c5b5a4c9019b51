//! What a script is played on.

use ygg_list::NoMemory;
use ygg_script::{Power, Typed};
use ygg_value::{Value, Values};

/// How a command or a waking ended.
#[derive(Drop)]
pub enum CommandOutcome {
    /// It was whole, with this answer, if it gives one.
    Whole(Option<Value>),
    /// Power failed before it returned.
    Down,
}

/// A machine in memory, made of the layers of a file on its disk, that can be formatted, called and woken, makes background steps and loses power. Where the
/// fuse of `power` names a disk call power fails there. What is done of the disk calls is told by the events of `power`.
pub trait Scene {
    ghost use Rattle.std.specs.Prelude.{◌≡◌, [], List, None, IfOk};
    ghost use Rattle.ygg_syntax.specs.declared.tree.File.{File};
    ghost use Rattle.ygg_run_play.specs.ygg_meaning.Environments.{Env};
    ghost use Rattle.ygg_run_play.specs.ygg_meaning.Machine.{State, Machine};
    ghost use Rattle.ygg_run_play.specs.ygg_meaning.Noted.{Note};
    ghost use Rattle.ygg_run_play.specs.ygg_script.Fitting.{IsCallOf, IsTickOf};
    ghost use Rattle.ygg_run_play.specs.Named.{operation_name, tick_name};
    ghost use Rattle.ygg_run_play.specs.Scene.{calling, ticking, waking, Leave, Ends, After, FallsAfterAll};

    /// The machine of a file.
    ghost machine: { File → Machine Env Note };

    /// The state that it is in; of a fallen one the base alone counts.
    ghost state: { File → Self → State Env };

    /// It may be formatted: the disk is zeros.
    ghost fresh: { File → Self → Type 0 };

    /// It runs.
    ghost runs: { File → Self → Type 0 };

    /// Power has failed, and it may be woken.
    ghost stands: { File → Self → Type 0 };

    /// Formats all layers. Its only error is out of memory.
    fn format(&mut self, typed: &Typed, power: &mut Power) -> Result<(), NoMemory>
        requires fresh { fresh typed.now.file self.old }
        requires fuse { power.old.fuse ≡ None }
        ensures starts { IfOk result (λ done. (notes : List Note) × (machine typed.now.file).Starts (state typed.now.file self.new) notes
            × Leave notes power.old power.new) }
        ensures runs { IfOk result (λ done. runs typed.now.file self.new) };

    /// Calls the operation at a place of the topmost layer. Its only error is out of memory, after which it is given up.
    fn call(
        &mut self,
        typed: &Typed,
        op: u32,
        args: &Values,
        power: &mut Power,
    ) -> Result<CommandOutcome, NoMemory>
        requires runs { runs typed.now.file self.old }
        requires operation { IsCallOf typed.now.file op args.now }
        ensures ends { IfOk result (λ ended. Ends (machine typed.now.file) (calling (operation_name typed.now.file op) args.now)
            (state typed.now.file self.old) power.old ended (state typed.now.file self.new) power.new) }
        ensures after { IfOk result (λ ended. After ended (runs typed.now.file self.new) (stands typed.now.file self.new)) };

    /// Makes the background step at a place of a layer. Its only error is out of memory, after which it is given up.
    fn tick(
        &mut self,
        typed: &Typed,
        layer: u32,
        number: u32,
        power: &mut Power,
    ) -> Result<CommandOutcome, NoMemory>
        requires runs { runs typed.now.file self.old }
        requires tick { IsTickOf typed.now.file layer number }
        ensures ends { IfOk result (λ ended. Ends (machine typed.now.file) (ticking (tick_name typed.now.file layer number))
            (state typed.now.file self.old) power.old ended (state typed.now.file self.new) power.new) }
        ensures after { IfOk result (λ ended. After ended (runs typed.now.file self.new) (stands typed.now.file self.new)) };

    /// Wakes all layers. Its only error is out of memory, after which it is given up.
    fn wake(&mut self, typed: &Typed, power: &mut Power) -> Result<CommandOutcome, NoMemory>
        requires stands { stands typed.now.file self.old }
        ensures ends { IfOk result (λ ended. Ends (machine typed.now.file) waking (state typed.now.file self.old) power.old ended
            (state typed.now.file self.new) power.new) }
        ensures after { IfOk result (λ ended. After ended (runs typed.now.file self.new) (stands typed.now.file self.new)) };

    /// Power fails between commands. It takes no memory.
    fn lose(&mut self)
        ensures lost { (f : File) → runs f self.old → (machine f).Loses (state f self.old) [] (state f self.new).base }
        ensures stands { (f : File) → runs f self.old → stands f self.new };

    /// Power that fails after the last disk call of something cuts it there.
    ghost falls_after_all: { (f : File) (s : Self) → runs f s → FallsAfterAll (machine f) };
}
