//! What layers on one another can do beside being a machine below a layer.

use ygg_eval::{Lower, Power, Turn, Typed};
use ygg_list::NoMemory;

/// A ground, or layers on one: it can be formatted and woken, makes background steps and loses power. Disk calls of one command are counted by the
/// `passed` of its `power`. After `Down` the state is a fallen one, which may be woken; after `Failed` or out of memory the tower is given up.
pub trait Tower: Lower {
    ghost use Rattle.std.specs.Prelude.{◌≡◌, ◌<◌, IsTrue, IsSome, None};
    ghost use Rattle.ygg_eval.specs.ygg_meaning.Machine.{TickName};
    ghost use Rattle.ygg_eval.specs.Lower.{Standing, Serves, AfterWhole, ending_of};
    ghost use Rattle.ygg_syntax.specs.declared.tree.File.{File};
    ghost use Rattle.ygg_machine.specs.Commands.{ticking, waking, IsTickAt, HasTick};
    ghost use Rattle.ygg_machine.specs.Towers.{Rooted, IsTower, FormatEnds, CommandEnds, StillStands, LosesPower};

    /// What it means where it is formatted from a state.
    ghost rooted: { Self → Rooted Self };

    /// What is so of it while it runs and after power failed: the file has its layers, and its ground the rows of the file's disk.
    ghost stands: { File → Self → Type 0 };

    /// Formats the layers, the lowest first, each from memory of zeros.
    fn format(&mut self, typed: &Typed, power: &mut Power) -> Result<Turn, NoMemory>
        requires stands { stands typed.now.file self.old }
        requires fuse { power.old.fuse ≡ None }
        ensures ends { FormatEnds (rooted self.old) typed.now.file (ending_of result)
            (record { machine = self.old; power = power.old }) (record { machine = self.new; power = power.new }) }
        ensures serves { AfterWhole (ending_of result) (Serves Self.means typed.now.file (Self.means.number self.old)
            (record { machine = self.new; power = power.new })) }
        ensures stands { StillStands Self.means stands typed.now.file self.old self.new };

    /// Makes a background step of one of the layers; the memory of those above it stays. Layers and background steps count from 0. Of a layer that isn't
    /// there nothing is done.
    fn tick(
        &mut self,
        typed: &Typed,
        layer: u32,
        number: u32,
        power: &mut Power,
    ) -> Result<Turn, NoMemory>
        requires serves { Serves Self.means typed.now.file (Self.means.number self.old) (record { machine = self.old; power = power.old }) }
        requires tick { HasTick typed.now.file layer number }
        ensures ends { layer < Self.means.number self.old → (name : TickName) → IsTickAt typed.now.file layer number name →
            CommandEnds (rooted self.old).meaning typed.now.file (ticking name) (ending_of result)
            (record { machine = self.old; power = power.old }) (record { machine = self.new; power = power.new }) }
        ensures serves { AfterWhole (ending_of result) (Serves Self.means typed.now.file (Self.means.number self.old)
            (record { machine = self.new; power = power.new })) }
        ensures stands { StillStands Self.means stands typed.now.file self.old self.new };

    /// Wakes the layers after power failed, the lowest first: each recovers from memory of zeros.
    fn wake(&mut self, typed: &Typed, power: &mut Power) -> Result<Turn, NoMemory>
        requires stands { stands typed.now.file self.old }
        requires fuse { IsSome power.old.fuse → IsTrue Self.means.can_lose }
        ensures ends { CommandEnds (rooted self.old).meaning typed.now.file waking (ending_of result)
            (record { machine = self.old; power = power.old }) (record { machine = self.new; power = power.new }) }
        ensures serves { AfterWhole (ending_of result) (Serves Self.means typed.now.file (Self.means.number self.old)
            (record { machine = self.new; power = power.new })) }
        ensures stands { StillStands Self.means stands typed.now.file self.old self.new };

    /// Power fails between commands. It takes no memory.
    fn lose_power(&mut self)
        requires can { IsTrue Self.means.can_lose }
        ensures lost { LosesPower (rooted self.old).meaning stands self.old self.new };

    /// What each tower keeps.
    ghost stacks: { IsTower Self.means rooted stands };
}
