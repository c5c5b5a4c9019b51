//! One layer on a machine below.

ghost use Rattle.std.specs.Prelude.{◌≡◌};
ghost use Rattle.std.specs.Prelude.{Ok, IsTrue, IsFalse};
ghost use Rattle.ygg_eval.specs.Lower.{ending_of};
ghost use Rattle.ygg_machine.specs.Floors.{memory_at, EndsAs, run_ending, silent, IsCut, IsWhole};

use crate::tower::Tower;
use crate::viewed::Viewed;
use std::alloc::Global;
use std::marker::Model;
use ygg_eval::{Body, Ended, Lower, Part, Power, Turn, Typed, run_body, zeros};
use ygg_list::{NoMemory, Sequence};
use ygg_syntax::lists;
use ygg_syntax::tree::Declared;
use ygg_value::Values;

/// A layer of a file on a machine below, which contracts see as the values of its memory and the machine below; its place in the file, from the
/// bottom one on and counted from 0, is the number of that machine. It can't be stopped: its falls come by the fuse.
#[derive(Drop)]
pub struct Floor<W: Lower + Drop> {
    alloc: Global,
    place: u32,
    memory: Values,
    below: W,
}

impl<W: Lower + Drop> Model for Floor<W> {
    ghost use Rattle.std.specs.Prelude.{◌≡◌};
    ghost use Rattle.ygg_machine.specs.Floors.{Raised};

    ghost Value = { Raised W };

    ghost view = { λ f. record { memory = f.memory; below = f.below } };

    ghost invariant = { λ f. f.place ≡ W.means.number f.below };
}

/// The memory variables of the layer at a place.
fn memory_of(typed: &Typed, place: u32) -> &[Declared]
    ensures { result.now ≡ memory_at typed.now.file place }
{
    match lists::layer::get(&typed.file().layers, place as usize) {
        Some(layer) => lists::declared::as_slice(&layer.memory),
        None => &[],
    }
}

/// How a call ends whose block ended so.
fn turn_of(ended: Ended) -> Turn
    requires { EndsAs (run_ending (Ok ended)) (Ok ended) }
    ensures { ending_of (Ok result) ≡ run_ending (Ok ended) }
{
    match ended {
        Ended::Whole(None) => Turn::Done,
        Ended::Whole(Some(answer)) => Turn::Answer(answer),
        Ended::Down => Turn::Down,
        Ended::Failed => Turn::Failed,
        Ended::Stopped | Ended::Short => unreachable!(),
    }
}

/// The same of a command that gives no answer.
fn silent_turn_of(ended: Ended) -> Turn
    requires { EndsAs (run_ending (Ok ended)) (Ok ended) }
    ensures { ending_of (Ok result) ≡ silent (run_ending (Ok ended)) }
{
    match ended {
        Ended::Whole(_) => Turn::Done,
        Ended::Down => Turn::Down,
        Ended::Failed => Turn::Failed,
        Ended::Stopped | Ended::Short => unreachable!(),
    }
}

/// The same of a call, which may have found no memory.
fn result_of(ended: Result<Ended, NoMemory>) -> Result<Turn, NoMemory>
    requires { EndsAs (run_ending ended) ended }
    ensures { ending_of result ≡ run_ending ended }
{
    match ended {
        Ok(ended) => Ok(turn_of(ended)),
        Err(error) => Err(error),
    }
}

/// The same of a command that gives no answer.
fn silent_result_of(ended: Result<Ended, NoMemory>) -> Result<Turn, NoMemory>
    requires { EndsAs (run_ending ended) ended }
    ensures { ending_of result ≡ silent (run_ending ended) }
{
    match ended {
        Ok(ended) => Ok(silent_turn_of(ended)),
        Err(error) => Err(error),
    }
}

/// Whether a command wasn't whole.
fn was_cut(ended: &Result<Turn, NoMemory>) -> bool
    ensures cut { IsTrue result → IsCut (ending_of ended.now) }
    ensures whole { IsFalse result → IsWhole (ending_of ended.now) }
{
    match ended {
        Ok(Turn::Done | Turn::Answer(_)) => false,
        Ok(Turn::Down | Turn::Failed) | Err(_) => true,
    }
}

impl<W: Lower + Drop> Floor<W> {
    ghost use Rattle.std.specs.Prelude.{◌≡◌, IfOk, OnOk, OnErr, []};
    ghost use Rattle.ygg_syntax.specs.declared.grammar.BlockKind.TheVariants as kind;
    ghost use Rattle.ygg_syntax.specs.declared.tree.Layer.{Layer};
    ghost use Rattle.ygg_syntax.specs.declared.tree.Block.{Block};
    ghost use Rattle.ygg_eval.specs.ygg_meaning.Environments.{bind};
    ghost use Rattle.ygg_eval.specs.Bodies.{IsBlock, IsRunnable, kind_of, arguments_in};
    ghost use Rattle.ygg_eval.specs.Lower.{Serves, AfterWhole};
    ghost use Rattle.ygg_machine.specs.Floors.{RunsOn};
    ghost use Rattle.ygg_eval.specs.Zeros.{zero_values};

    /// The layer of a file at a place on the machine below, which is that of the number before, where it was neither formatted nor woken yet: it keeps
    /// nothing. It takes no memory.
    pub fn asleep(alloc: Global, place: u32, below: W) -> Floor<W>
        requires { W.means.number below ≡ place }
        ensures { result ≡ record { memory = []; below = below } }
    {
        Floor {
            alloc,
            place,
            memory: Sequence::new(alloc),
            below,
        }
    }

    /// The machine below, without the layer.
    pub fn into_below(self) -> W
        ensures { result ≡ self.below }
    {
        self.below
    }

    /// Runs a block of the layer on the machine below.
    fn run(
        &mut self,
        typed: &Typed,
        part: Part,
        number: u32,
        args: &Values,
        power: &mut Power,
    ) -> Result<Ended, NoMemory>
        requires kind { kind_of part ≡ kind.Impl }
        requires block { IsRunnable typed.now.file (record { layer = W.means.number self.old.below; part = part; number = number }) args.now
            self.old.memory }
        requires serves { Serves W.means typed.now.file (W.means.number self.old.below) (record { machine = self.old.below; power = power.old }) }
        ensures ends { EndsAs (run_ending result) result }
        ensures ran { (l : Layer) (b : Block) →
            IsBlock typed.now.file (record { layer = W.means.number self.old.below; part = part; number = number }) l b →
            RunsOn W.means typed.now.file l b (bind (arguments_in l part number) args.now) (record { machine = self.old; power = power.old })
            (run_ending result) (record { machine = self.new; power = power.new }) }
        ensures serves { AfterWhole (run_ending result) (Serves W.means typed.now.file (W.means.number self.old.below)
            (record { machine = self.new.below; power = power.new })) }
    {
        let body = Body {
            layer: self.place,
            part,
            number,
        };
        run_body(
            self.alloc,
            typed,
            body,
            args,
            &mut self.memory,
            &mut self.below,
            None,
            power,
        )
    }

    /// Makes the memory zeros. Its only error is out of memory, which leaves the layer as it was.
    fn clear(&mut self, typed: &Typed) -> Result<(), NoMemory>
        ensures cleared { OnOk result (self.new ≡ record {
          memory = zero_values (memory_at typed.now.file (W.means.number self.old.below));
          below = self.old.below;
        }) }
        ensures kept { OnErr result (self.new ≡ self.old) }
    {
        let cleared = zeros(self.alloc, memory_of(typed, self.place))?;
        self.memory = cleared;
        Ok(())
    }
}

impl<W: Lower + Drop> Lower for Floor<W> {
    ghost use Rattle.ygg_machine.specs.Floors.{floor_meaning};
    ghost use Rattle.ygg_machine.specs.FloorKeeps.{floor_keeps};

    ghost means = { floor_meaning W.means };

    ghost keeps = { floor_keeps W.means W.keeps };

    fn call(
        &mut self,
        typed: &Typed,
        op: u32,
        args: &Values,
        power: &mut Power,
    ) -> Result<Turn, NoMemory> {
        result_of(self.run(typed, Part::Impl, op, args, power))
    }

    fn fall(
        &mut self,
        typed: &Typed,
        op: u32,
        args: &Values,
        power: &mut Power,
    ) -> Result<(), NoMemory> {
        // A floor can't be stopped, and stays as it was.
        Ok(())
    }

    fn lose(&mut self, typed: &Typed, power: &mut Power) -> Result<(), NoMemory> {
        // A floor can't be stopped, and stays as it was.
        Ok(())
    }
}

impl<W: Tower + Drop> Floor<W> {
    ghost use Rattle.std.specs.Prelude.{◌≡◌, ◌<◌, suc, Some, slice_get, [], length};
    ghost use Rattle.ygg_syntax.specs.declared.grammar.BlockKind.TheVariants as kind;
    ghost use Rattle.ygg_syntax.specs.declared.tree.Layer.{Layer};
    ghost use Rattle.ygg_syntax.specs.declared.tree.Block.{Block};
    ghost use Rattle.ygg_eval.specs.ygg_type_rules.declared.scope.Signature.{Signature};
    ghost use Rattle.ygg_eval.specs.ygg_meaning.Environments.{Name};
    ghost use Rattle.ygg_eval.specs.Bodies.{IsBlock, IsRunnable, kind_of};
    ghost use Rattle.ygg_eval.specs.Layers.{signatures_at};
    ghost use Rattle.ygg_eval.specs.Lower.{Standing, Serves, AfterWhole, IsCallable, ending_of};
    ghost use Rattle.ygg_machine.specs.Commands.{calling};
    ghost use Rattle.ygg_machine.specs.Floors.{floor_meaning, RunsSilently, Begins, IsFirst};
    ghost use Rattle.ygg_machine.specs.Towers.{StandsOn, StillStands, CommandEnds, floor_rooted};

    /// Runs a block of the layer that has no arguments, and gives no answer.
    fn run_silently(
        &mut self,
        typed: &Typed,
        part: Part,
        number: u32,
        power: &mut Power,
    ) -> Result<Turn, NoMemory>
        requires kind { kind_of part ≡ kind.Impl }
        requires block { IsRunnable typed.now.file (record { layer = W.means.number self.old.below; part = part; number = number }) []
            self.old.memory }
        requires serves { Serves W.means typed.now.file (W.means.number self.old.below) (record { machine = self.old.below; power = power.old }) }
        ensures ran { (l : Layer) (b : Block) →
            IsBlock typed.now.file (record { layer = W.means.number self.old.below; part = part; number = number }) l b →
            RunsSilently W.means typed.now.file l b (record { machine = self.old; power = power.old }) (ending_of result)
            (record { machine = self.new; power = power.new }) }
        ensures serves { AfterWhole (ending_of result) (Serves W.means typed.now.file (W.means.number self.old.below)
            (record { machine = self.new.below; power = power.new })) }
    {
        let args = Sequence::new(self.alloc);
        silent_result_of(self.run(typed, part, number, &args, power))
    }

    /// Runs a block that has no arguments, the only one of its part, from memory of zeros.
    fn begin(&mut self, typed: &Typed, part: Part, power: &mut Power) -> Result<Turn, NoMemory>
        requires part { IsFirst part }
        requires layer { W.means.number self.old.below < length typed.now.file.layers }
        requires serves { Serves W.means typed.now.file (W.means.number self.old.below) (record { machine = self.old.below; power = power.old }) }
        ensures began { (l : Layer) (b : Block) →
            IsBlock typed.now.file (record { layer = W.means.number self.old.below; part = part; number = 0 }) l b →
            Begins W.means typed.now.file l b (record { machine = self.old; power = power.old }) (ending_of result)
            (record { machine = self.new; power = power.new }) }
        ensures serves { AfterWhole (ending_of result) (Serves W.means typed.now.file (W.means.number self.old.below)
            (record { machine = self.new.below; power = power.new })) }
    {
        self.clear(typed)?;
        self.run_silently(typed, part, 0, power)
    }

    /// Calls an operation of the layer by its place there, as a command of the layers on the ground.
    pub fn operate(
        &mut self,
        typed: &Typed,
        op: u32,
        args: &Values,
        power: &mut Power,
    ) -> Result<Turn, NoMemory>
        requires serves { Serves (floor_meaning W.means) typed.now.file (suc (W.means.number self.old.below))
            (record { machine = self.old; power = power.old }) }
        requires operation { IsCallable (signatures_at typed.now.file (suc (W.means.number self.old.below))) op args.now }
        ensures ends { (name : Name) (o : Signature) →
            slice_get (signatures_at typed.now.file (suc (W.means.number self.old.below))) op ≡ Some (name, o) →
            CommandEnds (floor_rooted W.rooted self.old).meaning typed.now.file (calling name args.now) (ending_of result)
            (record { machine = self.old; power = power.old }) (record { machine = self.new; power = power.new }) }
        ensures serves { AfterWhole (ending_of result) (Serves (floor_meaning W.means) typed.now.file (suc (W.means.number self.old.below))
            (record { machine = self.new; power = power.new })) }
        ensures stands { StillStands (floor_meaning W.means) (StandsOn W.means W.stands) typed.now.file self.old self.new }
    {
        self.call(typed, op, args, power)
    }
}

impl<W: Tower + Drop> Tower for Floor<W> {
    ghost use Rattle.ygg_machine.specs.Towers.{StandsOn, floor_rooted};
    ghost use Rattle.ygg_machine.specs.FloorStacks.{floor_stacks};

    ghost rooted = { floor_rooted W.rooted };

    ghost stands = { StandsOn W.means W.stands };

    ghost stacks = { floor_stacks W.means W.rooted W.stands W.keeps W.stacks };

    fn format(&mut self, typed: &Typed, power: &mut Power) -> Result<Turn, NoMemory> {
        let ended = self.below.format(typed, power);
        if was_cut(&ended) {
            return ended;
        }
        self.begin(typed, Part::Format, power)
    }

    fn tick(
        &mut self,
        typed: &Typed,
        layer: u32,
        number: u32,
        power: &mut Power,
    ) -> Result<Turn, NoMemory> {
        if layer == self.place {
            self.run_silently(typed, Part::Tick, number, power)
        } else {
            self.below.tick(typed, layer, number, power)
        }
    }

    fn wake(&mut self, typed: &Typed, power: &mut Power) -> Result<Turn, NoMemory> {
        let ended = self.below.wake(typed, power);
        if was_cut(&ended) {
            return ended;
        }
        self.begin(typed, Part::Recover, power)
    }

    fn lose_power(&mut self) {
        self.below.lose_power();
    }
}

impl<W: Viewed + Drop> Viewed for Floor<W> {
    ghost use Rattle.ygg_machine.specs.Viewed.{floor_seen, floor_sees};

    ghost seen = { floor_seen W.seen };

    ghost sees = { floor_sees W.means W.rooted W.stands W.seen W.sees };
}
