//! The beginning and the end of a run.

ghost use Rattle.std.specs.Prelude.{◌≡◌, ◌++◌, IfOk, OnOk, IsTrue, IsSome, take};
ghost use Rattle.std.specs.Option.{ForSome};
ghost use Rattle.ygg_eval_expr.specs.ygg_meaning.Environments.{bind};
ghost use Rattle.ygg_eval_expr.specs.Held.{env_of};
ghost use Rattle.ygg_eval_expr.specs.Known.{CanEvaluate};
ghost use Rattle.ygg_eval.specs.Bodies.{variables_in, arguments_in};
ghost use Rattle.ygg_eval.specs.Lower.{Serves};
ghost use Rattle.ygg_eval.specs.BlockSteps.{stands};
ghost use Rattle.ygg_eval_expr.specs.ygg_meaning.Progress.{answer_of};
ghost use Rattle.ygg_eval.specs.Ready.{eval_in, known_in};
ghost use Rattle.ygg_eval.specs.Ending.{values_in, EndsSo};

use crate::names::name_values;
use crate::run::Ended;
use crate::runner::Runner;
use crate::{Body, Lower, arguments_of, variables_of};
use std::alloc::Global;
use std::mem;
use ygg_eval_expr::{Binding, Power, lend_values};
use ygg_list::NoMemory;
use ygg_syntax::tree::{Expr, Layer};
use ygg_value::{Value, Values};

/// The names that a block sees when it begins: its variables, whose values are taken, and its arguments, whose values are lent. Its
/// only error is out of memory.
pub fn names_of<'a, 'v>(
    alloc: Global,
    layer: &'a Layer,
    body: Body,
    args: &'v Values,
    state: &mut Values,
) -> Result<Vec<Binding<'a, 'v>>, NoMemory>
    ensures { IfOk result (λ names. env_of names.items ≡ bind (variables_in layer.now body.part) state.old
        ++ bind (arguments_in layer.now body.part body.number) args.now) }
{
    let values = mem::replace(state, Values::new(alloc)).into_vec();
    let mut names = Vec::new(alloc);
    name_values(&mut names, variables_of(layer, body.part), values)?;
    lend_values(
        &mut names,
        arguments_of(layer, body.part, body.number),
        args.as_slice(),
    )?;
    Ok(names)
}

/// Gives the values of the first names back. Its only error is out of memory.
pub fn give_back(
    alloc: Global,
    mut names: Vec<Binding<'_, '_>>,
    count: usize,
    state: &mut Values,
) -> Result<(), NoMemory>
    ensures { OnOk result (state.new ≡ values_in (take count (env_of names.entry.items))) }
{
    names.truncate(count);
    let mut values = Values::new(alloc);
    for binding in names {
        let Binding { name: _, held } = binding;
        let value = held.into_value(alloc)?;
        values.push(value)?;
    }
    *state = values;
    Ok(())
}

impl<'a> Runner<'a> {
    /// What a block returns.
    pub fn answer(
        &self,
        answer: &'a Option<Expr>,
        names: &[Binding<'a, '_>],
    ) -> Result<Option<Value>, NoMemory>
        requires { ForSome answer.now (CanEvaluate (known_in self.now.typed.now.file (env_of names.now))) }
        ensures { IfOk result (λ y. y ≡ answer_of (eval_in self.now.typed.now.file) answer.now (env_of names.now)) }
    {
        match answer {
            Some(e) => {
                let value = self.value(e, names)?;
                Ok(Some(value))
            }
            None => Ok(None),
        }
    }

    /// Ends a run whose statements came to their end: its block has ended, unless the stop comes after all its calls.
    pub fn finish<W: Lower>(
        &self,
        answer: &'a Option<Expr>,
        names: Vec<Binding<'a, '_>>,
        count: usize,
        left: u64,
        state: &mut Values,
        lower: &mut W,
        power: &mut Power,
    ) -> Result<Ended, NoMemory>
        requires answer { ForSome answer.now (CanEvaluate (known_in self.now.typed.now.file (env_of names.items))) }
        requires stops { IsSome self.now.stop → IsTrue W.means.can_stop }
        requires serves { IsSome self.now.stop → Serves W.means self.now.typed.now.file self.now.number (stands lower.old power.old) }
        ensures { EndsSo W.means self.now.typed.now.file self.now.number self.now.stop answer.now (env_of names.entry.items) count left
            (stands lower.old power.old) result state.new (stands lower.new power.new) }
    {
        match self.stop {
            None => {
                let answer = self.answer(answer, names.as_slice())?;
                give_back(self.alloc, names, count, state)?;
                Ok(Ended::Whole(answer))
            }
            Some(stop) => {
                if !stop.within && left == 0 {
                    lower.lose(self.typed, power)?;
                    return Ok(Ended::Stopped);
                }
                give_back(self.alloc, names, count, state)?;
                Ok(Ended::Short)
            }
        }
    }
}
