//! The specification of a layer: its blocks are run on the values of its state variables.

ghost use Rattle.std.specs.Prelude.{◌≡◌, ◌<◌, suc, IfOk, OnOk, IsTrue, length, slice_get, is_some, Some};
ghost use Rattle.ygg_syntax.specs.declared.tree.Layer.{Layer};
ghost use Rattle.ygg_syntax.specs.declared.tree.Operation.{Operation};
ghost use Rattle.ygg_syntax.specs.declared.grammar.BlockKind.TheVariants as kind;
ghost use Rattle.ygg_eval.specs.ygg_meaning.Shapes.{values_fit};
ghost use Rattle.ygg_eval.specs.Layers.{variables_at, signatures_at};
ghost use Rattle.ygg_eval.specs.Bodies.{IsRunnable, kind_of};
ghost use Rattle.ygg_eval.specs.Lower.{IsCallable, Called, Fell, AfterWhole, ending_of, outage_of};
ghost use Rattle.ygg_eval.specs.Kept.{spec_meaning, standing, Loses};
ghost use Rattle.ygg_eval.specs.Ran.{BodyRan, OperationBroken, CrashRan};

use crate::silent::Silent;
use crate::{Body, Ended, Part, Power, Turn, Typed, run_body};
use std::alloc::Global;
use ygg_list::{NoMemory, Sequence};
use ygg_syntax::lists;
use ygg_value::{Value, Values};

/// Runs a block of a specification wholly, and gives its answer. Its only error is out of memory.
fn run(
    alloc: Global,
    typed: &Typed,
    body: Body,
    args: &Values,
    state: &mut Values,
    power: &mut Power,
) -> Result<Option<Value>, NoMemory>
    requires body { IsRunnable typed.now.file body args.now state.old }
    requires kind { kind_of body.part ≡ kind.Spec }
    ensures { IfOk result (λ answer. BodyRan typed.now.file body args.now answer state.old state.new power.old power.new) }
{
    let mut below = Silent;
    match run_body(alloc, typed, body, args, state, &mut below, None, power)? {
        Ended::Whole(answer) => Ok(answer),
        Ended::Stopped | Ended::Short | Ended::Down | Ended::Failed => unreachable!(),
    }
}

/// Calls an operation: its `spec` block is run.
pub fn call(
    alloc: Global,
    typed: &Typed,
    place: u32,
    op: u32,
    args: &Values,
    state: &mut Values,
    power: &mut Power,
) -> Result<Turn, NoMemory>
    requires there { place < length typed.now.file.layers }
    requires fits { IsTrue (values_fit (variables_at typed.now.file (suc place)) state.old) }
    requires operation { IsCallable (signatures_at typed.now.file (suc place)) op args.now }
    ensures called { Called spec_meaning typed.now.file (signatures_at typed.now.file (suc place)) op args.now (ending_of result)
        (standing (suc place) state.old power.old) (standing (suc place) state.new power.new) }
    ensures fits { AfterWhole (ending_of result) (IsTrue (values_fit (variables_at typed.now.file (suc place)) state.new)) }
{
    let body = Body {
        layer: place,
        part: Part::Spec,
        number: op,
    };
    match run(alloc, typed, body, args, state, power)? {
        None => Ok(Turn::Done),
        Some(answer) => Ok(Turn::Answer(answer)),
    }
}

/// Whether an operation of the layer at a place has an `on crash` block.
fn has_on_crash(typed: &Typed, place: u32, op: u32) -> bool
    requires there { place < length typed.now.file.layers }
    requires operation { (l : Layer) → slice_get typed.now.file.layers place ≡ Some l → op < length l.operations }
    ensures { (l : Layer) (o : Operation) → slice_get typed.now.file.layers place ≡ Some l → slice_get l.operations op ≡ Some o → result ≡ is_some o.on_crash }
{
    let layer = &lists::layer::as_slice(&typed.file().layers)[place as usize];
    lists::operation::as_slice(&layer.operations)[op as usize]
        .on_crash
        .is_some()
}

/// What an operation leaves that power cuts, before the `crash` block: what its `on crash` block leaves, or, where it has none, what its
/// `spec` block leaves or nothing, as the next pick says. Its only error is out of memory.
fn cut(
    alloc: Global,
    typed: &Typed,
    place: u32,
    op: u32,
    args: &Values,
    state: &mut Values,
    power: &mut Power,
) -> Result<(), NoMemory>
    requires fits { IsTrue (values_fit (variables_at typed.now.file (suc place)) state.old) }
    requires operation { IsCallable (signatures_at typed.now.file (suc place)) op args.now }
    ensures { OnOk result (OperationBroken typed.now.file place op args.now state.old state.new power.old power.new) }
{
    if has_on_crash(typed, place, op) {
        let part = Part::OnCrash;
        let body = Body {
            layer: place,
            part,
            number: op,
        };
        run(alloc, typed, body, args, state, power)?;
        return Ok(());
    }
    let happened = power.picks.peek();
    power.picks.take();
    if happened {
        let body = Body {
            layer: place,
            part: Part::Spec,
            number: op,
        };
        run(alloc, typed, body, args, state, power)?;
    }
    Ok(())
}

/// Runs the `crash` block. Its only error is out of memory.
fn crash(
    alloc: Global,
    typed: &Typed,
    place: u32,
    state: &mut Values,
    power: &mut Power,
) -> Result<(), NoMemory>
    requires there { place < length typed.now.file.layers }
    requires fits { IsTrue (values_fit (variables_at typed.now.file (suc place)) state.old) }
    ensures { OnOk result (CrashRan typed.now.file place state.old state.new power.old power.new) }
{
    let body = Body {
        layer: place,
        part: Part::Crash,
        number: 0,
    };
    run(alloc, typed, body, &Sequence::new(alloc), state, power)?;
    Ok(())
}

/// Power fails between operations: the `crash` block is run. Its only error is out of memory.
pub fn lose(
    alloc: Global,
    typed: &Typed,
    place: u32,
    state: &mut Values,
    power: &mut Power,
) -> Result<(), NoMemory>
    requires there { place < length typed.now.file.layers }
    requires fits { IsTrue (values_fit (variables_at typed.now.file (suc place)) state.old) }
    ensures lost { Loses typed.now.file (standing (suc place) state.old power.old) (outage_of result) (standing (suc place) state.new power.new) }
    ensures fits { OnOk result (IsTrue (values_fit (variables_at typed.now.file (suc place)) state.new)) }
{
    crash(alloc, typed, place, state, power)
}

/// Power fails within a call of an operation. Its only error is out of memory.
pub fn fall(
    alloc: Global,
    typed: &Typed,
    place: u32,
    op: u32,
    args: &Values,
    state: &mut Values,
    power: &mut Power,
) -> Result<(), NoMemory>
    requires there { place < length typed.now.file.layers }
    requires fits { IsTrue (values_fit (variables_at typed.now.file (suc place)) state.old) }
    requires operation { IsCallable (signatures_at typed.now.file (suc place)) op args.now }
    ensures fell { Fell spec_meaning typed.now.file (signatures_at typed.now.file (suc place)) op args.now (outage_of result)
        (standing (suc place) state.old power.old) (standing (suc place) state.new power.new) }
    ensures fits { OnOk result (IsTrue (values_fit (variables_at typed.now.file (suc place)) state.new)) }
{
    cut(alloc, typed, place, op, args, state, power)?;
    crash(alloc, typed, place, state, power)
}
