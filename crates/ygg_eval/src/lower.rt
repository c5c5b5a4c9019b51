use ygg_list::NoMemory;
use ygg_meaning_laws::{Power, Turn};
use ygg_type::Typed;
use ygg_value::Values;

/// The machine on which the blocks of a layer are run: a disk, the specification of the layer below, or an implementation of it.
/// Its operations are those of the machine with its number in the file, counted from 0 in their order there; those of the disk are
/// `read`, `write` and `flush`. After `Down` the state is a fallen one; after `Failed` or out of memory the machine is given up.
pub trait Lower {
    ghost use Rattle.std.specs.Prelude.{◌≡◌, IsTrue, OnOk};
    ghost use Rattle.ygg_eval.specs.Layers.{signatures_at};
    ghost use Rattle.ygg_eval.specs.Lower.{Meaning, Standing, Serves, IsCallable, Called, Fell, AfterWhole, IsLower, ending_of, outage_of};

    /// What its states and its steps mean.
    ghost means: { Meaning Self };

    /// Calls an operation with arguments.
    fn call(
        &mut self,
        typed: &Typed,
        op: u32,
        args: &Values,
        power: &mut Power,
    ) -> Result<Turn, NoMemory>
        requires serves { Serves means typed.now.file (means.number self.old) (record { machine = self.old; power = power.old }) }
        requires operation { IsCallable (signatures_at typed.now.file (means.number self.old)) op args.now }
        ensures called { Called means typed.now.file (signatures_at typed.now.file (means.number self.old)) op args.now (ending_of result)
            (record { machine = self.old; power = power.old }) (record { machine = self.new; power = power.new }) }
        ensures serves { AfterWhole (ending_of result) (Serves means typed.now.file (means.number self.old)
            (record { machine = self.new; power = power.new })) };

    /// Power fails within a call of an operation, where the machine can be stopped. Its only error is out of memory.
    fn fall(
        &mut self,
        typed: &Typed,
        op: u32,
        args: &Values,
        power: &mut Power,
    ) -> Result<(), NoMemory>
        requires serves { Serves means typed.now.file (means.number self.old) (record { machine = self.old; power = power.old }) }
        requires operation { IsCallable (signatures_at typed.now.file (means.number self.old)) op args.now }
        ensures fell { IsTrue means.can_stop → Fell means typed.now.file (signatures_at typed.now.file (means.number self.old)) op args.now (outage_of result)
            (record { machine = self.old; power = power.old }) (record { machine = self.new; power = power.new }) }
        ensures serves { OnOk result (Serves means typed.now.file (means.number self.old) (record { machine = self.new; power = power.new })) };

    /// Power fails between operations, where the machine can be stopped. Its only error is out of memory.
    fn lose(&mut self, typed: &Typed, power: &mut Power) -> Result<(), NoMemory>
        requires serves { Serves means typed.now.file (means.number self.old) (record { machine = self.old; power = power.old }) }
        ensures lost { IsTrue means.can_stop → means.Loses typed.now.file (record { machine = self.old; power = power.old }) (outage_of result)
            (record { machine = self.new; power = power.new }) }
        ensures serves { OnOk result (Serves means typed.now.file (means.number self.old) (record { machine = self.new; power = power.new })) };

    /// Each call, also one that failed or found no memory, is what the machine's steps say; the count of faults never falls, and rose where
    /// a call answered `Failed`; `Down` comes exactly where the fuse's call is reached.
    ghost keeps: { IsLower means };
}
