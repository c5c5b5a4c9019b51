//! The schedule of an obligation.

ghost use Rattle.std.specs.Prelude.{◌≡◌, ◌<◌, ◌^◌, [], IfOk, IfSome, IsTrue, Some, length};
ghost use Rattle.std.specs.Option.{option_map};
ghost use Rattle.ygg_replay.specs.ygg_sched.Fitting.{halt_meant};
ghost use Rattle.ygg_oblige_schedule.specs.ygg_eval.Bodies.{arguments_in};
ghost use Rattle.ygg_replay.specs.ygg_meaning.Environments.{bind};
ghost use Rattle.ygg_replay.specs.ygg_meaning.Obligations.{Again, Idle, Init, name_of};
ghost use Rattle.ygg_replay.specs.ygg_meaning.Shapes.{env_fits, values_fit, zeros_of};
ghost use Rattle.ygg_eval_places.specs.ygg_sym_laws.Fronts.{run_picks};
ghost use Rattle.ygg_eval_places.specs.ygg_sym_runs.Laws.{picked_by};
ghost use Rattle.ygg_oblige_given.specs.Tables.{given_values};
ghost use Rattle.ygg_oblige_given.specs.ygg_oblige_laws.Schedules.{stop_of, cut_from, schedule_from, whole_from, woken_picks};
ghost use Rattle.ygg_oblige_given.specs.ygg_oblige_laws.LayerTerms.{ShapesKept};
ghost use Rattle.ygg_oblige_schedule.specs.Here.{
  below_of,
  inputs_of,
  layer_of,
  low_env,
  numbers_of,
  obligation_of,
  CanRun,
  IsHere,
  LowFits,
};
ghost use Rattle.ygg_oblige_schedule.specs.Runs.{StandIs, args_env, memory_env, stand_fits};
ghost use Rattle.ygg_oblige_schedule.specs.Schedules.{
  given_here,
  made_of,
  named_here,
  HasBlock,
  IsBounded,
  IsRead,
  NamedShaped,
  OfBlock,
  PartsAre,
  StandsHere,
};

use crate::reader::{EnvironmentReader, FirstBlock, Stand};
use std::alloc::Global;
use ygg_base::{Bits, Text};
use ygg_eval::Part;
use ygg_eval_places::{Fallen, Lost};
use ygg_list::NoMemory;
use ygg_oblige_list::{SymObligation, name_of};
use ygg_replay::{Halt, Schedule};
use ygg_syntax::lists;
use ygg_syntax::tree::Declared;
use ygg_value::Values;

/// The stop of a run that power cuts, its picks, and those of the recovery after it.
#[derive(Drop)]
pub struct CutParts {
    pub stop: Option<Halt>,
    pub picks: Bits,
    pub wake: Bits,
}

impl<'a> EnvironmentReader<'a> {
    /// The obligation's name. Its only error is out of memory.
    fn name(&self) -> Result<Text, NoMemory>
        ensures { IfOk result (λ name. name ≡ name_of self.now.site.layer.now.name.text (obligation_of self.now)) }
    {
        name_of(self.alloc, self.site.layer, self.site.obligation)
    }

    /// No values.
    fn none(&self) -> Values
        ensures { result ≡ [] }
    {
        Values::new(self.alloc)
    }

    /// No picks.
    fn no_picks(&self) -> Bits
        ensures { result ≡ [] }
    {
        Bits::new(self.alloc)
    }

    /// The obligation's schedule of these parts. Its only error is out of memory.
    fn scheduled(
        &self,
        stand: Stand,
        args: Values,
        parts: CutParts,
        other: Bits,
    ) -> Result<Schedule, NoMemory>
        ensures { IfOk result (λ x. x ≡ made_of self.now stand args parts other) }
    {
        let name = self.name()?;
        Ok(Schedule {
            name,
            state: stand.state,
            memory: stand.memory,
            low: stand.low,
            args,
            stop: parts.stop,
            picks: parts.picks,
            wake: parts.wake,
            other,
        })
    }

    /// Formatting. Its only error is out of memory.
    fn formatting(&self) -> Result<Schedule, NoMemory>
        requires here { IsHere self.now }
        ensures { IfOk result (IsRead self.now (schedule_from (below_of self.now) (layer_of self.now) (inputs_of self.now) (numbers_of self.now) Init
            (given_here self.now) [])) }
    {
        let low = self.low_at_start()?;
        let memory = self.zero_memory()?;
        let block = FirstBlock {
            part: Part::Format,
            number: 0,
        };
        let picks = self.run(block, &self.none(), memory, low, self.site.numbers.run)?;
        let stand = Stand {
            state: self.none(),
            memory: self.none(),
            low: self.none(),
        };
        let parts = CutParts {
            stop: None,
            picks,
            wake: self.no_picks(),
        };
        self.scheduled(stand, self.none(), parts, self.no_picks())
    }

    /// The picks of a whole run of a block from these states. Its only error is out of memory.
    fn whole_picks(&self, block: FirstBlock, args: &Values, stand: &Stand) -> Result<Bits, NoMemory>
        requires here { IsHere self.now }
        requires stand { StandIs self.now stand.now }
        requires block { HasBlock self.now block args.now }
        ensures { IfOk result (λ picks. OfBlock self.now block (λ b. picks ≡ run_picks (below_of self.now) (layer_of self.now) b (given_here self.now).memory
            (bind (arguments_in self.now.site.layer.now block.part block.number) args.now) (given_here self.now).low
            (picked_by (inputs_of self.now) (numbers_of self.now).run))) }
    {
        let memory = stand.memory.copy(self.alloc)?;
        let low = stand.low.copy(self.alloc)?;
        self.run(block, args, memory, low, self.site.numbers.run)
    }

    /// A whole run of a block. Its only error is out of memory.
    fn whole(&self, block: FirstBlock, args: Values) -> Result<Schedule, NoMemory>
        requires here { IsHere self.now }
        requires fit { IsTrue (stand_fits (layer_of self.now) (given_here self.now)) }
        requires block { HasBlock self.now block args }
        ensures { IfOk result (λ x. OfBlock self.now block (λ b. IsRead self.now (whole_from (below_of self.now) (layer_of self.now) (inputs_of self.now)
            (numbers_of self.now) b (given_here self.now) (bind (arguments_in self.now.site.layer.now block.part block.number) args) args) x)) }
    {
        let stand = self.stand()?;
        let picks = self.whole_picks(block, &args, &stand)?;
        let parts = CutParts {
            stop: None,
            picks,
            wake: self.no_picks(),
        };
        self.scheduled(stand, args, parts, self.no_picks())
    }

    /// The stop and the picks of a run of a block from these states that power cuts, and of the recovery after it. Its only error is out of memory.
    fn fallen_parts(
        &self,
        block: FirstBlock,
        args: &Values,
        stand: &Stand,
    ) -> Result<CutParts, NoMemory>
        requires here { IsHere self.now }
        requires stand { StandIs self.now stand.now }
        requires block { HasBlock self.now block args.now }
        ensures { IfOk result (λ p. OfBlock self.now block (λ b. PartsAre self.now b (given_here self.now).memory
            (bind (arguments_in self.now.site.layer.now block.part block.number) args.now) (given_here self.now).low p)) }
    {
        let memory = stand.memory.copy(self.alloc)?;
        let low = stand.low.copy(self.alloc)?;
        self.cut_parts(block, args, memory, low)
    }

    /// A run of a block that power cuts, and the recovery after it. Its only error is out of memory.
    fn fallen(&self, block: FirstBlock, args: Values) -> Result<Schedule, NoMemory>
        requires here { IsHere self.now }
        requires fit { IsTrue (stand_fits (layer_of self.now) (given_here self.now)) }
        requires block { HasBlock self.now block args }
        ensures { IfOk result (λ x. OfBlock self.now block (λ b. IsRead self.now (cut_from (below_of self.now) (layer_of self.now) (inputs_of self.now)
            (numbers_of self.now) b (given_here self.now) (bind (arguments_in self.now.site.layer.now block.part block.number) args) args
            (stop_of (below_of self.now) (layer_of self.now) (inputs_of self.now) (numbers_of self.now) b (given_here self.now).memory
            (bind (arguments_in self.now.site.layer.now block.part block.number) args) (given_here self.now).low)) x)) }
    {
        let stand = self.stand()?;
        let parts = self.fallen_parts(block, &args, &stand)?;
        self.scheduled(stand, args, parts, self.no_picks())
    }

    /// Power loss between operations, and the recovery after it. Its only error is out of memory.
    fn idle(&self) -> Result<Schedule, NoMemory>
        requires here { IsHere self.now }
        requires fit { IsTrue (stand_fits (layer_of self.now) (given_here self.now)) }
        ensures { IfOk result (IsRead self.now (schedule_from (below_of self.now) (layer_of self.now) (inputs_of self.now) (numbers_of self.now) Idle
            (given_here self.now) [])) }
    {
        let stand = self.stand()?;
        let Lost { low, picks } = self.lose(&stand.low)?;
        let wake = self.wake(low, self.site.numbers.wake)?;
        let parts = CutParts {
            stop: None,
            picks,
            wake,
        };
        self.scheduled(stand, self.none(), parts, self.no_picks())
    }

    /// The stop and the picks of a recovery from a state below that power cuts, and of the recovery after it. Its only error is out of memory.
    fn recovery_parts(&self, low: &Values) -> Result<CutParts, NoMemory>
        requires here { IsHere self.now }
        requires low { LowFits self.now low.now }
        ensures { IfOk result (PartsAre self.now self.now.site.layer.now.recover (zeros_of self.now.site.layer.now.memory) [] (low_env self.now low.now)) }
    {
        let memory = self.zero_memory()?;
        let below = low.copy(self.alloc)?;
        let block = FirstBlock {
            part: Part::Recover,
            number: 0,
        };
        let none = self.none();
        self.cut_parts(block, &none, memory, below)
    }

    /// The picks of the one whole recovery from a state below. Its only error is out of memory.
    fn other_picks(&self, low: &Values) -> Result<Bits, NoMemory>
        requires here { IsHere self.now }
        requires low { LowFits self.now low.now }
        ensures { IfOk result (λ picks. picks ≡ woken_picks (below_of self.now) (layer_of self.now) (inputs_of self.now) (numbers_of self.now).other
            (low_env self.now low.now)) }
    {
        let first = low.copy(self.alloc)?;
        self.wake(first, self.site.numbers.other)
    }

    /// A recovery that power cuts, the recovery after it, and one whole recovery from the first state. Its only error is out of memory.
    fn again(&self) -> Result<Schedule, NoMemory>
        requires here { IsHere self.now }
        requires fit { IsTrue (env_fits (layer_of self.now).low (given_here self.now).low) }
        ensures { IfOk result (IsRead self.now (schedule_from (below_of self.now) (layer_of self.now) (inputs_of self.now) (numbers_of self.now) Again
            (given_here self.now) [])) }
    {
        let low = self.low()?;
        let parts = self.recovery_parts(&low)?;
        let other = self.other_picks(&low)?;
        let stand = Stand {
            state: self.none(),
            memory: self.none(),
            low,
        };
        self.scheduled(stand, self.none(), parts, other)
    }

    /// The stop and the picks of a run that power cuts and of the recovery after it. Its only error is out of memory.
    fn cut_parts(
        &self,
        block: FirstBlock,
        args: &Values,
        memory: Values,
        low: Values,
    ) -> Result<CutParts, NoMemory>
        requires here { IsHere self.now }
        requires run { CanRun self.now block args.now memory }
        requires low { LowFits self.now low }
        ensures { IfOk result (λ p. OfBlock self.now block (λ b. PartsAre self.now b
            (memory_env self.now block args.now memory low self.now.site.layer.now) (args_env self.now block args.now memory low self.now.site.layer.now)
            (low_env self.now low) p)) }
    {
        let fallen = self.cut(block, args, memory, low)?;
        match fallen {
            None => Ok(CutParts {
                stop: None,
                picks: self.no_picks(),
                wake: self.no_picks(),
            }),
            Some(fallen) => self.woken_parts(fallen),
        }
    }

    /// The same where power cuts it so. Its only error is out of memory.
    fn woken_parts(&self, fallen: Fallen) -> Result<CutParts, NoMemory>
        requires here { IsHere self.now }
        requires low { LowFits self.now fallen.low }
        ensures stop { IfOk result (λ p. option_map halt_meant p.stop ≡ Some (record { within = fallen.stop.within; event = fallen.stop.event })) }
        ensures bounded { IfOk result (λ p. IsBounded p.stop) }
        ensures picks { IfOk result (λ p. p.picks ≡ fallen.picks) }
        ensures wake { IfOk result (λ p. p.wake ≡ woken_picks (below_of self.now) (layer_of self.now) (inputs_of self.now) (numbers_of self.now).wake
            (low_env self.now fallen.low)) }
    {
        let Fallen { stop, low, picks } = fallen;
        let wake = self.wake(low, self.site.numbers.wake)?;
        let stop = Halt {
            within: stop.within,
            event: stop.event,
        };
        Ok(CutParts {
            stop: Some(stop),
            picks,
            wake,
        })
    }

    /// The values of an operation's arguments. Its only error is out of memory.
    fn arguments(&self, declared: &[Declared]) -> Result<Values, NoMemory>
        requires kept { ShapesKept declared.now }
        requires fit { IsTrue (values_fit declared.now (given_values (inputs_of self.now) (numbers_of self.now).args declared.now)) }
        ensures { IfOk result (λ args. args ≡ given_values (inputs_of self.now) (numbers_of self.now).args declared.now) }
    {
        let first = self.site.numbers.args;
        self.table.values(self.alloc, first, declared)
    }

    /// The schedule of the obligation. Its only error is out of memory.
    pub fn schedule(&self) -> Result<Schedule, NoMemory>
        requires here { IsHere self.now }
        requires stands { StandsHere self.now }
        requires fit { NamedShaped self.now }
        ensures { IfOk result (IsRead self.now (named_here self.now)) }
    {
        let number = self.site.number;
        match self.site.obligation {
            SymObligation::Init => self.formatting(),
            SymObligation::Call(operation) => {
                let args = self.arguments(lists::declared::as_slice(&operation.arguments))?;
                let part = Part::Impl;
                self.whole(FirstBlock { part, number }, args)
            }
            SymObligation::Cut(operation) => {
                let args = self.arguments(lists::declared::as_slice(&operation.arguments))?;
                let part = Part::Impl;
                self.fallen(FirstBlock { part, number }, args)
            }
            SymObligation::Tick(_) => {
                let part = Part::Tick;
                self.whole(FirstBlock { part, number }, self.none())
            }
            SymObligation::CutTick(_) => {
                let part = Part::Tick;
                self.fallen(FirstBlock { part, number }, self.none())
            }
            SymObligation::Idle => self.idle(),
            SymObligation::Again => self.again(),
        }
    }
}
