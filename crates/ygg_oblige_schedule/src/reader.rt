//! The runs that an obligation speaks of, with the picks that an environment names by place.

ghost use Rattle.std.specs.Prelude.{◌≡◌, ◌+◌, [], IfOk, IsTrue};
ghost use Rattle.ygg_eval_places.specs.Bits.{bits_in};
ghost use Rattle.ygg_eval_places.specs.Steps.{FellBetween};
ghost use Rattle.ygg_replay.specs.ygg_meaning.Environments.{bind};
ghost use Rattle.ygg_replay.specs.ygg_meaning.Shapes.{env_fits, values_fit};
ghost use Rattle.ygg_oblige_given.specs.ygg_oblige_laws.Inputs.{given_env};
ghost use Rattle.ygg_oblige_given.specs.ygg_oblige_laws.States.{given_stand};
ghost use Rattle.ygg_oblige_given.specs.ygg_oblige_laws.TermStates.{words_in};
ghost use Rattle.ygg_oblige_given.specs.ygg_oblige_laws.LayerTerms.{ShapesKept};
ghost use Rattle.ygg_oblige_given.specs.ygg_oblige_laws.Schedules.{woken_picks};
ghost use Rattle.ygg_eval_places.specs.ygg_sym_runs.Laws.{picked_by};
ghost use Rattle.ygg_oblige_schedule.specs.Here.{
  below_of,
  file_of,
  inputs_of,
  layer_of,
  low_env,
  numbers_of,
  CanRun,
  IsHere,
  LowFits,
};
ghost use Rattle.ygg_oblige_schedule.specs.Runs.{FallsHere, PicksAre, StandIs, stand_fits};

use crate::site::Site;
use std::alloc::Global;
use ygg_base::Bits;
use ygg_eval::{Body, Part, Typed};
use ygg_eval_places::{Choices, Fallen, Lost, PlacedBits, lose_fronts, run_fronts};
use ygg_list::NoMemory;
use ygg_oblige_given::{InputTable, further, words_in};
use ygg_syntax::lists;
use ygg_value::Values;

/// An obligation of a file with the inputs that it has, and what these are.
#[derive(Clone, Copy)]
pub struct EnvironmentReader<'a> {
    /// Where memory comes from.
    pub alloc: Global,
    /// The file.
    pub typed: &'a Typed,
    /// The obligation.
    pub site: Site<'a>,
    /// The inputs.
    pub table: &'a InputTable,
}

/// The states that an obligation begins with: the specification's variables, the memory, and the state below.
#[derive(Drop)]
pub struct Stand {
    pub state: Values,
    pub memory: Values,
    pub low: Values,
}

/// The block that an obligation's first run is of.
#[derive(Clone, Copy)]
pub struct FirstBlock {
    /// Which one of the layer.
    pub part: Part,
    /// The place of its operation or background step, else 0.
    pub number: u32,
}

impl<'a> EnvironmentReader<'a> {
    /// The values of the state below that the obligation begins with. Its only error is out of memory.
    pub fn low(&self) -> Result<Values, NoMemory>
        requires here { IsHere self.now }
        requires fit { IsTrue (env_fits (layer_of self.now).low (given_stand (inputs_of self.now) self.now.site.states (layer_of self.now)).low) }
        ensures fits { IfOk result (LowFits self.now) }
        ensures is { IfOk result (λ low. low_env self.now low ≡ (given_stand (inputs_of self.now) self.now.site.states (layer_of self.now)).low) }
    {
        let from = self.low_from()?;
        self.table.values(self.alloc, from, self.site.low)
    }

    /// The number of the first input of the state below: those of the layer's state and memory come before. Its only error is out of memory.
    fn low_from(&self) -> Result<u64, NoMemory>
        requires { IsHere self.now }
        ensures { IfOk result (λ from. from ≡ self.now.site.states + words_in self.now.site.layer.now.state + words_in self.now.site.layer.now.memory) }
    {
        let state = words_in(lists::declared::as_slice(&self.site.layer.state))?;
        let memory = words_in(lists::declared::as_slice(&self.site.layer.memory))?;
        let after_state = further(self.site.states, state)?;
        let from = further(after_state, memory)?;
        Ok(from)
    }

    /// The values of the specification's variables that the obligation begins with. Its only error is out of memory.
    fn state(&self) -> Result<Values, NoMemory>
        requires kept { ShapesKept self.now.site.layer.now.state }
        requires fit { IsTrue (env_fits self.now.site.layer.now.state
            (given_env (inputs_of self.now) self.now.site.states self.now.site.layer.now.state)) }
        ensures fits { IfOk result (λ state. IsTrue (values_fit self.now.site.layer.now.state state)) }
        ensures is { IfOk result (λ state. bind self.now.site.layer.now.state state
            ≡ given_env (inputs_of self.now) self.now.site.states self.now.site.layer.now.state) }
    {
        let declared = lists::declared::as_slice(&self.site.layer.state);
        self.table.values(self.alloc, self.site.states, declared)
    }

    /// The values of the memory that the obligation begins with, whose inputs are numbered on from a number. Its only error is out of memory.
    fn memory(&self, from: u64) -> Result<Values, NoMemory>
        requires kept { ShapesKept self.now.site.layer.now.memory }
        requires fit { IsTrue (env_fits self.now.site.layer.now.memory (given_env (inputs_of self.now) from self.now.site.layer.now.memory)) }
        ensures fits { IfOk result (λ memory. IsTrue (values_fit self.now.site.layer.now.memory memory)) }
        ensures is { IfOk result (λ memory. bind self.now.site.layer.now.memory memory
            ≡ given_env (inputs_of self.now) from self.now.site.layer.now.memory) }
    {
        let declared = lists::declared::as_slice(&self.site.layer.memory);
        self.table.values(self.alloc, from, declared)
    }

    /// The states that the obligation begins with. Its only error is out of memory.
    pub fn stand(&self) -> Result<Stand, NoMemory>
        requires here { IsHere self.now }
        requires fit { IsTrue (stand_fits (layer_of self.now) (given_stand (inputs_of self.now) self.now.site.states (layer_of self.now))) }
        ensures { IfOk result (StandIs self.now) }
    {
        let words = words_in(lists::declared::as_slice(&self.site.layer.state))?;
        let from = further(self.site.states, words)?;
        let state = self.state()?;
        let memory = self.memory(from)?;
        let low = self.low()?;
        Ok(Stand { state, memory, low })
    }

    /// The picks that inputs name by place, from an input on.
    fn choices(&self, first: u64) -> Choices<'_>
        ensures { bits_in result ≡ picked_by (inputs_of self.now) first }
    {
        Choices {
            bits: self.table.bits.as_slice(),
            first,
        }
    }

    /// The picks of a whole run of a block, whose inputs are numbered on from a number. Its only error is out of memory.
    pub fn run(
        &self,
        block: FirstBlock,
        args: &Values,
        mut memory: Values,
        low: Values,
        first: u64,
    ) -> Result<Bits, NoMemory>
        requires run { CanRun self.now block args.now memory }
        requires low { LowFits self.now low }
        ensures { IfOk result (λ picks. PicksAre self.now block args.now memory low first picks) }
    {
        let none = Choices {
            bits: &[],
            first: 0,
        };
        let bits = PlacedBits {
            run: self.choices(first),
            stops: none,
            last: none,
        };
        let body = Body {
            layer: self.site.place,
            part: block.part,
            number: block.number,
        };
        let front = run_fronts(self.alloc, self.typed, body, args, &mut memory, low, bits)?;
        Ok(front.picks)
    }

    /// Where power cuts a run of a block, what it leaves, and the picks that are taken till then; `None` where it comes to no stop that is set.
    /// Its only error is out of memory.
    pub fn cut(
        &self,
        block: FirstBlock,
        args: &Values,
        mut memory: Values,
        low: Values,
    ) -> Result<Option<Fallen>, NoMemory>
        requires run { CanRun self.now block args.now memory }
        requires low { LowFits self.now low }
        ensures { IfOk result (λ fallen. FallsHere self.now block args.now memory low fallen) }
    {
        let n = self.site.numbers;
        let bits = PlacedBits {
            run: self.choices(n.run),
            stops: self.choices(n.stop),
            last: self.choices(n.last),
        };
        let body = Body {
            layer: self.site.place,
            part: block.part,
            number: block.number,
        };
        let front = run_fronts(self.alloc, self.typed, body, args, &mut memory, low, bits)?;
        Ok(front.fallen)
    }

    /// What power loss between operations leaves. Its only error is out of memory.
    pub fn lose(&self, low: &Values) -> Result<Lost, NoMemory>
        requires here { IsHere self.now }
        requires low { LowFits self.now low.now }
        ensures { IfOk result (λ lost. FellBetween (file_of self.now) self.now.site.place (picked_by (inputs_of self.now) (numbers_of self.now).last) low.now
            lost.low [] lost.picks) }
    {
        let last = self.choices(self.site.numbers.last);
        lose_fronts(self.alloc, self.typed, self.site.place, low, last)
    }

    /// The picks of a whole recovery, whose inputs are numbered on from a number. Its only error is out of memory.
    pub fn wake(&self, low: Values, first: u64) -> Result<Bits, NoMemory>
        requires here { IsHere self.now }
        requires low { LowFits self.now low }
        ensures { IfOk result (λ picks. picks ≡ woken_picks (below_of self.now) (layer_of self.now) (inputs_of self.now) first (low_env self.now low)) }
    {
        let memory = self.zero_memory()?;
        let none = Values::new(self.alloc);
        let block = FirstBlock {
            part: Part::Recover,
            number: 0,
        };
        self.run(block, &none, memory, low, first)
    }
}
