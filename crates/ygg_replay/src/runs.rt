//! Runs of a layer's blocks on what the layer is specified over.

ghost use Rattle.std.specs.Prelude.{◌≡◌, IfOk, IsTrue, OnOk};
ghost use Rattle.ygg_syntax.specs.declared.grammar.BlockKind.TheVariants as kind;
ghost use Rattle.ygg_eval.specs.Bodies.{IsRunnable, kind_of};
ghost use Rattle.ygg_replay.specs.Runs.{LostBy, PartCut, PartRan, fresh};
ghost use Rattle.ygg_sched.specs.Fitting.{halt_meant};
ghost use Rattle.ygg_replay.specs.Sites.{IsBelow, IsHere, MemoryFits, low_at};

use crate::site::ReplaySite;
use std::alloc::Global;
use ygg_base::Bits;
use ygg_eval::{Body, Ended, Lower, Part, SpecLower, Stop, run_body};
use ygg_list::NoMemory;
use ygg_sched::{Halt, Picks, Power};
use ygg_value::{Value, Values};

/// Power that does not fail, with these picks, and 0 past their end. Its only error is out of memory.
pub fn power_with(alloc: Global, picks: &[bool]) -> Result<Power, NoMemory>
    ensures { IfOk result (λ power. power ≡ fresh picks.now) }
{
    Ok(Power {
        picks: Picks {
            bits: Bits::from_slice(alloc, picks)?,
            next: 0,
            past: false,
        },
        fuse: None,
        passed: 0,
        events: None,
    })
}

impl<'a> ReplaySite<'a> {
    /// Runs a block of the layer wholly with these picks, and gives its answer. Its only error is out of memory, after which nothing is said
    /// of the memory and the machine below.
    pub fn run(
        &self,
        part: Part,
        number: u32,
        args: &Values,
        memory: &mut Values,
        lower: &mut SpecLower,
        picks: &Bits,
    ) -> Result<Option<Value>, NoMemory>
        requires here { IsHere self.now }
        requires kind { kind_of part ≡ kind.Impl }
        requires block { IsRunnable self.now.typed.now.file (record { layer = self.now.place; part = part; number = number }) args.now memory.old }
        requires lower { IsBelow self.now lower.old }
        ensures ran { IfOk result (λ answer. PartRan self.now part number args.now picks.now memory.old lower.old.values answer memory.new
            lower.new.values) }
        ensures memory { OnOk result (MemoryFits self.now memory.new) }
        ensures lower { OnOk result (IsBelow self.now lower.new) }
    {
        let body = Body {
            layer: self.place,
            part,
            number,
        };
        let mut power = power_with(self.alloc, picks.as_slice())?;
        match run_body(
            self.alloc, self.typed, body, args, memory, lower, None, &mut power,
        )? {
            Ended::Whole(answer) => Ok(answer),
            Ended::Stopped | Ended::Short | Ended::Down | Ended::Failed => unreachable!(),
        }
    }

    /// Runs a block of the layer with these picks up to a stop, where power fails. It answers whether the stop was reached; the machine below is
    /// then what power has left. Its only error is out of memory, after which nothing is said of that machine.
    pub fn cut(
        &self,
        part: Part,
        number: u32,
        args: &Values,
        mut memory: Values,
        lower: &mut SpecLower,
        stop: Halt,
        picks: &Bits,
    ) -> Result<bool, NoMemory>
        requires here { IsHere self.now }
        requires kind { kind_of part ≡ kind.Impl }
        requires block { IsRunnable self.now.typed.now.file (record { layer = self.now.place; part = part; number = number }) args.now memory }
        requires lower { IsBelow self.now lower.old }
        ensures cut { IfOk result (λ stopped. PartCut self.now part number args.now (halt_meant stop) picks.now memory lower.old.values stopped
            (low_at self.now lower.new.values)) }
        ensures lower { OnOk result (IsBelow self.now lower.new) }
    {
        let body = Body {
            layer: self.place,
            part,
            number,
        };
        let stop = Some(Stop {
            within: stop.within,
            event: stop.event,
        });
        let mut power = power_with(self.alloc, picks.as_slice())?;
        match run_body(
            self.alloc,
            self.typed,
            body,
            args,
            &mut memory,
            lower,
            stop,
            &mut power,
        )? {
            Ended::Stopped => Ok(true),
            Ended::Short => Ok(false),
            Ended::Whole(_) | Ended::Down | Ended::Failed => unreachable!(),
        }
    }

    /// Power fails in the machine below with these picks. Its only error is out of memory, after which nothing is said of that machine.
    pub fn lose(&self, lower: &mut SpecLower, picks: &Bits) -> Result<(), NoMemory>
        requires here { IsHere self.now }
        requires lower { IsBelow self.now lower.old }
        ensures lost { OnOk result (LostBy self.now (low_at self.now lower.old.values) picks.now (low_at self.now lower.new.values)) }
        ensures lower { OnOk result (IsBelow self.now lower.new) }
    {
        let mut power = power_with(self.alloc, picks.as_slice())?;
        lower.lose(self.typed, &mut power)
    }
}
