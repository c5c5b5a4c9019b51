//! Runs of blocks by place, to their end or to where power fails.

ghost use Rattle.std.specs.Prelude.{◌≡◌, IfOk, IsTrue};
ghost use Rattle.ygg_eval_places.specs.Belows.{Stands};
ghost use Rattle.ygg_eval_places.specs.Fronts.{BodyFronted};
ghost use Rattle.ygg_eval.specs.Bodies.{IsBlock, IsRunnable, kind_of};
ghost use Rattle.ygg_eval.specs.Layers.{below_at, variables_at};
ghost use Rattle.ygg_eval.specs.ygg_meaning.Shapes.{values_fit};
ghost use Rattle.ygg_eval_places.specs.ygg_sym_laws.Below.{places_on};
ghost use Rattle.ygg_syntax.specs.declared.grammar.BlockKind.TheVariants as kind;
ghost use Rattle.ygg_syntax.specs.declared.tree.Block.{Block};
ghost use Rattle.ygg_syntax.specs.declared.tree.Layer.{Layer};

use crate::below::{BelowPlaces, BelowState, Fallen, PlacedBits};
use crate::{room, run_places};
use std::alloc::Global;
use ygg_base::Bits;
use ygg_eval::{Body, Typed, block_of};
use ygg_list::NoMemory;
use ygg_syntax::lists;
use ygg_value::{Value, Values};

/// What a run by place comes to: its answer, the values of the state below after it, the picks that it takes, from the front, and where power
/// fails in it, if a stop is set that it comes to.
#[derive(Drop)]
pub struct Front {
    pub answer: Option<Value>,
    pub low: Values,
    pub picks: Bits,
    pub fallen: Option<Fallen>,
}

/// Runs a block of a layer on the machine below it, whose values these are, with bits by place. Its only error is out of memory, after which
/// nothing is said of the values.
pub fn run_fronts(
    alloc: Global,
    typed: &Typed,
    body: Body,
    args: &Values,
    values: &mut Values,
    low: Values,
    bits: PlacedBits<'_>,
) -> Result<Front, NoMemory>
    requires body { IsRunnable typed.now.file body args.now values.old }
    requires kind { kind_of body.part ≡ kind.Impl }
    requires low { IsTrue (values_fit (variables_at typed.now.file body.layer) low) }
    ensures fronted { IfOk result (λ front. BodyFronted typed.now.file body args.now values.old low bits.entry front values.new) }
{
    let machine = BelowPlaces {
        typed,
        number: body.layer,
        bits,
    };
    let mut state = BelowState {
        low,
        picks: Bits::new(alloc),
        asked: 0,
        fallen: None,
    };
    let last = places(&machine, body)?;
    let answer = run_places(alloc, typed, body, args, values, &machine, &mut state)?;
    machine.end(alloc, last, &mut state)?;
    let BelowState {
        low,
        picks,
        asked: _,
        fallen,
    } = state;
    Ok(Front {
        answer,
        low,
        picks,
        fallen,
    })
}

/// How many places a block of a layer has on the machine below it. Its only error is out of memory, where they are 2^64 or more.
fn places(machine: &BelowPlaces<'_>, body: Body) -> Result<u64, NoMemory>
    requires there { (l : Layer) × (b : Block) × IsBlock machine.now.typed.now.file body l b }
    requires serves { Stands machine.now.typed.now.file machine.now.number }
    ensures { IfOk result (λ n. (l : Layer) (b : Block) → IsBlock machine.now.typed.now.file body l b →
        n ≡ places_on (below_at machine.now.typed.now.file machine.now.number) b) }
{
    let Some(layer) = lists::layer::get(&machine.typed.file().layers, body.layer as usize) else {
        unreachable!();
    };
    let Some(block) = block_of(layer, body.part, body.number) else {
        unreachable!();
    };
    room(machine, block)
}
