//! Runs of a block.

ghost use Rattle.std.specs.Prelude.{◌≡◌, Some};
ghost use Rattle.ygg_syntax.specs.declared.grammar.BlockKind.{BlockKind};
ghost use Rattle.ygg_eval_expr.specs.Held.{env_of};
ghost use Rattle.ygg_eval.specs.Bodies.{IsRunnable};
ghost use Rattle.ygg_eval.specs.declared.body.Stop.{Stop};
ghost use Rattle.ygg_eval.specs.BlockSteps.{stands};
ghost use Rattle.ygg_eval.specs.Runs.{BodyEnds, CanServe, StillServes};
ghost use Rattle.ygg_eval.specs.Ending.{IsReady, BlockEnds, ended_by};

use crate::ending::names_of;
use crate::flow::{Break, Flow};
use crate::runner::Runner;
use crate::statements::Frame;
use crate::{Body, Lower, Stop, block_of};
use std::alloc::Global;
use ygg_eval_expr::{Binding, Power};
use ygg_list::NoMemory;
use ygg_syntax::lists;
use ygg_syntax::tree::Block;
use ygg_type::Typed;
use ygg_value::{Value, Values};

/// How a run of a block ended.
#[derive(Drop)]
pub enum Ended {
    /// The block came to its end, with this answer; no stop was asked for.
    Whole(Option<Value>),
    /// The stop was reached, and power failed there.
    Stopped,
    /// The block came to its end before the stop.
    Short,
    /// A call of the machine below answered `Down`: power failed.
    Down,
    /// A call of the machine below answered `Failed`.
    Failed,
}

/// Runs a block of a file on the machine below its layer, up to the stop if there is one. The values are those of the layer's state
/// variables for `start`, `spec`, `on crash` and `crash`, and of its memory variables for the other parts. Choices take the next
/// picks of `power`; of its other parts nothing is looked at but by the machine below. Where the run ends before the block does,
/// nothing is said of the values, and after running out of memory, which is the only error, nothing is either.
pub fn run_body<W: Lower>(
    alloc: Global,
    typed: &Typed,
    body: Body,
    args: &Values,
    state: &mut Values,
    lower: &mut W,
    stop: Option<Stop>,
    power: &mut Power,
) -> Result<Ended, NoMemory>
    requires body { IsRunnable typed.now.file body args.now state.old }
    requires lower { CanServe W.means typed.now.file body stop (record { machine = lower.old; power = power.old }) }
    ensures ends { BodyEnds W.means typed.now.file body args.now stop state.old (record { machine = lower.old; power = power.old }) result state.new
        (record { machine = lower.new; power = power.new }) }
    ensures serves { StillServes W.means typed.now.file body.layer result (record { machine = lower.old; power = power.old })
        (record { machine = lower.new; power = power.new }) }
{
    let Some(layer) = lists::layer::get(&typed.file().layers, body.layer as usize) else {
        unreachable!();
    };
    let Some(block) = block_of(layer, body.part, body.number) else {
        unreachable!();
    };
    let runner = Runner {
        alloc,
        typed,
        number: body.layer,
        stop,
    };
    let count = state.len();
    let names = names_of(alloc, layer, body, args, state)?;
    runner.block_with(block, names, count, state, lower, power)
}

impl<'a> Runner<'a> {
    /// Runs a block whose first names are the variables that it changes, as many as `count` says.
    fn block_with<W: Lower>(
        &self,
        block: &'a Block,
        names: Vec<Binding<'a, '_>>,
        count: usize,
        state: &mut Values,
        lower: &mut W,
        power: &mut Power,
    ) -> Result<Ended, NoMemory>
        requires { (kind : BlockKind) × IsReady W.means self.now.typed.now.file kind self.now.number self.now.stop block.now (env_of names.items)
            (stands lower.old power.old) }
        ensures ends { BlockEnds W.means self.now.typed.now.file self.now.number self.now.stop block.now (env_of names.entry.items) count
            (stands lower.old power.old) result state.new (stands lower.new power.new) }
        ensures serves { StillServes W.means self.now.typed.now.file self.now.number result (stands lower.old power.old) (stands lower.new power.new) }
    {
        let left = calls_before(self.stop);
        let mut frame = Frame { names, left };
        let flow = self.statements(
            lists::stmt::as_slice(&block.statements),
            &mut frame,
            lower,
            power,
        )?;
        let Frame { names, left } = frame;
        match flow {
            Flow::Goes(()) => self.finish(&block.answer, names, count, left, state, lower, power),
            Flow::Breaks(how) => Ok(ended_by(how)),
        }
    }
}

/// How a run ends that was broken off so.
fn ended_by(how: Break) -> Ended
    ensures { result ≡ ended_by how }
{
    match how {
        Break::Stopped => Ended::Stopped,
        Break::Down => Ended::Down,
        Break::Failed => Ended::Failed,
    }
}

/// How many whole calls come before the stop.
fn calls_before(stop: Option<Stop>) -> u64
    ensures { (s : Stop) → stop ≡ Some s → result ≡ s.event }
{
    match stop {
        Some(stop) => stop.event,
        None => 0,
    }
}
