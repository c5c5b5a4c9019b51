//! Whole runs of blocks of a file by place.

ghost use Rattle.std.specs.Prelude.{◌≡◌, IfOk, OnOk, take};
ghost use Rattle.ygg_meaning_laws.specs.Direct.{direct_run};
ghost use Rattle.ygg_eval.specs.Ending.{values_in};
ghost use Rattle.ygg_eval.specs.Ready.{eval_in};
ghost use Rattle.ygg_eval.specs.ygg_eval_expr.Held.{env_of};
ghost use Rattle.ygg_eval.specs.Bodies.{IsRunnable};
ghost use Rattle.ygg_eval_places.specs.Wholes.{IsReady, BodyWalked, CanServe};
ghost use Rattle.ygg_meaning_laws.specs.ygg_meaning.Progress.{answer_of};

use crate::places::Places;
use crate::walker::Walker;
use std::alloc::Global;
use ygg_eval::{Binding, Body, Runner, Typed, block_of, give_back, names_of};
use ygg_list::NoMemory;
use ygg_syntax::lists;
use ygg_syntax::tree::Block;
use ygg_value::{Value, Values};

/// Runs a block of a file to its end on a machine that answers by place, and gives its answer. The values are those of the layer's state
/// variables for `start`, `spec`, `on crash` and `crash`, and of its memory variables for the other parts. Its only error is out of memory,
/// after which nothing is said of the values and the state.
pub fn run_places<W: Places>(
    alloc: Global,
    typed: &Typed,
    body: Body,
    args: &Values,
    values: &mut Values,
    machine: &W,
    state: &mut W::State,
) -> Result<Option<Value>, NoMemory>
    requires body { IsRunnable typed.now.file body args.now values.old }
    requires machine { CanServe (W.means machine.now) typed.now.file body ((W.means machine.now).state state.old) }
    ensures walked { IfOk result (λ answer. BodyWalked (W.means machine.now) typed.now.file body args.now values.old ((W.means machine.now).state state.old)
        answer values.new ((W.means machine.now).state state.new)) }
{
    let Some(layer) = lists::layer::get(&typed.file().layers, body.layer as usize) else {
        unreachable!();
    };
    let Some(block) = block_of(layer, body.part, body.number) else {
        unreachable!();
    };
    let walker = Walker {
        runner: Runner {
            alloc,
            typed,
            number: body.layer,
            stop: None,
        },
        machine,
    };
    let count = values.len();
    let names = names_of(alloc, layer, body, args, values)?;
    walker.whole(block, names, count, values, state)
}

impl<'a, W: Places> Walker<'a, W> {
    /// Runs a block whose first names are the variables that it changes, as many as `count` says, and gives its answer.
    fn whole(
        &self,
        block: &'a Block,
        mut names: Vec<Binding<'a, '_>>,
        count: usize,
        values: &mut Values,
        state: &mut W::State,
    ) -> Result<Option<Value>, NoMemory>
        requires ready { IsReady (W.means self.now.machine.now) self.now.runner.typed.now.file self.now.runner.number block.now (env_of names.items)
            ((W.means self.now.machine.now).state state.old) }
        ensures answer { IfOk result (λ answer. answer ≡ answer_of (eval_in self.now.runner.typed.now.file) block.now.answer
            (direct_run (eval_in self.now.runner.typed.now.file) (W.means self.now.machine.now).space (W.means self.now.machine.now).handle block.now
            (env_of names.entry.items) ((W.means self.now.machine.now).state state.old)).env) }
        ensures values { OnOk result (values.new ≡ values_in (take count
            (direct_run (eval_in self.now.runner.typed.now.file) (W.means self.now.machine.now).space (W.means self.now.machine.now).handle block.now
            (env_of names.entry.items) ((W.means self.now.machine.now).state state.old)).env)) }
        ensures state { OnOk result ((W.means self.now.machine.now).state state.new
            ≡ (direct_run (eval_in self.now.runner.typed.now.file) (W.means self.now.machine.now).space (W.means self.now.machine.now).handle block.now
            (env_of names.entry.items) ((W.means self.now.machine.now).state state.old)).to) }
    {
        self.run(block, &mut names, state)?;
        let answer = self.runner.answer(&block.answer, names.as_slice())?;
        give_back(self.runner.alloc, names, count, values)?;
        Ok(answer)
    }
}
