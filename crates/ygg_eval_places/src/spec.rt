//! The specification of a layer, whose blocks take the bits of their places.

ghost use Rattle.std.specs.Prelude.{◌≡◌, ◌<◌, ◌≤◌, suc, is_some, slice_get, IfOk, OnOk, IsTrue, Some, length};
ghost use Rattle.ygg_eval_places.specs.Bits.{bits_in};
ghost use Rattle.ygg_eval_places.specs.Steps.{Answered, Crashed, FellBetween, FellWithin, ThenCrashed};
ghost use Rattle.ygg_eval.specs.Bodies.{IsBlock, IsRunnable, block_in, kind_of};
ghost use Rattle.ygg_eval.specs.Layers.{signatures_at, variables_at};
ghost use Rattle.ygg_eval.specs.ygg_meaning.Progress.{Call};
ghost use Rattle.ygg_eval.specs.ygg_meaning.Shapes.{values_fit};
ghost use Rattle.ygg_syntax.specs.declared.grammar.BlockKind.TheVariants as kind;
ghost use Rattle.ygg_syntax.specs.declared.grammar.BlockKind.TheVariants.{Impl};
ghost use Rattle.ygg_syntax.specs.declared.tree.Block.{Block};
ghost use Rattle.ygg_syntax.specs.declared.tree.Layer.{Layer};
ghost use Rattle.ygg_eval.specs.ygg_meaning_laws.Questions.{question_fits};

use crate::bits::Choices;
use crate::run::{choices_room, run_choices};
use std::alloc::Global;
use ygg_base::{Bits, Text};
use ygg_eval::{Body, Part, Typed, block_of, place_of};
use ygg_list::NoMemory;
use ygg_syntax::lists;
use ygg_value::{Value, Values};

/// A whole call at a place: the operation's `spec` block is run, whose places begin at that of the call. Its only error is out of memory,
/// after which nothing is said of the values and the picks.
pub fn call(
    alloc: Global,
    typed: &Typed,
    number: u32,
    name: &Text,
    args: &Values,
    choices: Choices<'_>,
    place: u64,
    low: &mut Values,
    picks: &mut Bits,
) -> Result<Option<Value>, NoMemory>
    requires layer { 0 < number }
    requires there { number ≤ length typed.now.file.layers }
    requires fits { IsTrue (values_fit (variables_at typed.now.file number) low.old) }
    requires asks { IsTrue (question_fits Impl (signatures_at typed.now.file number) (Call name.now args.now)) }
    ensures { IfOk result (λ answer. Answered typed.now.file number (bits_in choices.entry) place (Call name.now args.now) low.old answer
        low.new picks.old picks.new) }
{
    let op = place_of(typed, number, name);
    let body = Body {
        layer: number - 1,
        part: Part::Spec,
        number: op,
    };
    let from = choices.after(place)?;
    run_choices(alloc, typed, body, args, low, from, picks)
}

/// Runs the `crash` block. Its only error is out of memory.
fn crash(
    alloc: Global,
    typed: &Typed,
    layer: u32,
    choices: Choices<'_>,
    low: &mut Values,
    picks: &mut Bits,
) -> Result<(), NoMemory>
    requires there { layer < length typed.now.file.layers }
    requires fits { IsTrue (values_fit (variables_at typed.now.file (suc layer)) low.old) }
    ensures { OnOk result (Crashed typed.now.file layer (bits_in choices.entry) low.old low.new picks.old picks.new) }
{
    let body = Body {
        layer,
        part: Part::Crash,
        number: 0,
    };
    let none = Values::new(alloc);
    run_choices(alloc, typed, body, &none, low, choices, picks)?;
    Ok(())
}

/// Runs a block and then the `crash` block, whose places come after all of the block's. Its only error is out of memory.
fn then_crash(
    alloc: Global,
    typed: &Typed,
    body: Body,
    args: &Values,
    choices: Choices<'_>,
    low: &mut Values,
    picks: &mut Bits,
) -> Result<(), NoMemory>
    requires body { IsRunnable typed.now.file body args.now low.old }
    requires kind { kind_of body.part ≡ kind.Spec }
    ensures { OnOk result ((l : Layer) (b : Block) → IsBlock typed.now.file body l b →
        ThenCrashed typed.now.file l body b (bits_in choices.entry) args.now low.old low.new picks.old picks.new) }
{
    let room = choices_room(typed, body)?;
    let after = choices.after(room)?;
    run_choices(alloc, typed, body, args, low, choices, picks)?;
    crash(alloc, typed, body.layer, after, low, picks)
}

/// Whether a layer has a block.
fn has_block(typed: &Typed, body: Body) -> bool
    requires { body.layer < length typed.now.file.layers }
    ensures { (l : Layer) → slice_get typed.now.file.layers body.layer ≡ Some l → result ≡ is_some (block_in l body.part body.number) }
{
    let layer = &lists::layer::as_slice(&typed.file().layers)[body.layer as usize];
    block_of(layer, body.part, body.number).is_some()
}

/// What power leaves that fails within a call: what the operation's own `on crash` block leaves, or, where it has none, what its `spec` block
/// leaves or nothing, as a pick says; then the `crash` block is run. Its only error is out of memory.
pub fn cut(
    alloc: Global,
    typed: &Typed,
    number: u32,
    name: &Text,
    args: &Values,
    choices: Choices<'_>,
    low: &mut Values,
    picks: &mut Bits,
) -> Result<(), NoMemory>
    requires layer { 0 < number }
    requires there { number ≤ length typed.now.file.layers }
    requires fits { IsTrue (values_fit (variables_at typed.now.file number) low.old) }
    requires asks { IsTrue (question_fits Impl (signatures_at typed.now.file number) (Call name.now args.now)) }
    ensures { OnOk result (FellWithin typed.now.file number (bits_in choices.entry) (Call name.now args.now) low.old low.new picks.old
        picks.new) }
{
    let op = place_of(typed, number, name);
    let own = Body {
        layer: number - 1,
        part: Part::OnCrash,
        number: op,
    };
    if has_block(typed, own) {
        return then_crash(alloc, typed, own, args, choices, low, picks);
    }
    let happened = choices.bit(0)?;
    picks.push(happened)?;
    let rest = choices.after(1)?;
    if happened {
        let whole = Body {
            layer: number - 1,
            part: Part::Spec,
            number: op,
        };
        then_crash(alloc, typed, whole, args, rest, low, picks)
    } else {
        crash(alloc, typed, number - 1, rest, low, picks)
    }
}

/// What power leaves that fails between calls. Its only error is out of memory.
pub fn lose(
    alloc: Global,
    typed: &Typed,
    number: u32,
    choices: Choices<'_>,
    low: &mut Values,
    picks: &mut Bits,
) -> Result<(), NoMemory>
    requires layer { 0 < number }
    requires there { number ≤ length typed.now.file.layers }
    requires fits { IsTrue (values_fit (variables_at typed.now.file number) low.old) }
    ensures { OnOk result (FellBetween typed.now.file number (bits_in choices.entry) low.old low.new picks.old picks.new) }
{
    crash(alloc, typed, number - 1, choices, low, picks)
}
