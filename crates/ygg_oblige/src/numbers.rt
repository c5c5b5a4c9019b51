//! Which inputs an obligation has.

ghost use Rattle.std.specs.Prelude.{◌≡◌, ◌+◌, IfOk};
ghost use Rattle.ygg_oblige_parts.specs.ygg_oblige_laws.Numbers.{arguments_of, block_of, numbers_from, numbers_of};
ghost use Rattle.ygg_oblige_parts.specs.ygg_meaning.Layer.{ClosedLayer};
ghost use Rattle.ygg_oblige_parts.specs.Sites.{below_in};
ghost use Rattle.ygg_oblige_parts.specs.Layers.{closed};
ghost use Rattle.ygg_oblige_parts.specs.ygg_oblige_laws.LayerTerms.{ShapesKept};
ghost use Rattle.ygg_oblige_list.specs.InCode.{obligation_of};
ghost use Rattle.ygg_oblige.specs.Numbering.{numbers_in};

use ygg_oblige_list::{SymNumbers, SymObligation};
use ygg_oblige_parts::{Maker, NoMemory, words_in};
use ygg_sym::{failure_room, places};
use ygg_syntax::lists;
use ygg_syntax::tree::{Block, Declared, Layer};

/// The arguments that an obligation speaks of.
pub fn arguments_of<'a>(obligation: SymObligation<'a>) -> &'a [Declared]
    ensures { result.now ≡ arguments_of (obligation_of obligation.entry) }
{
    match obligation {
        SymObligation::Call(operation) | SymObligation::Cut(operation) => {
            lists::declared::as_slice(&operation.arguments)
        }
        _ => &[],
    }
}

/// The block whose run an obligation speaks of; for power loss between operations, that of recovery.
pub fn block_of<'a>(layer: &'a Layer, obligation: SymObligation<'a>) -> &'a Block
    ensures { (L : ClosedLayer) → L.layer ≡ layer.now → result.now ≡ block_of L (obligation_of obligation.entry) }
{
    match obligation {
        SymObligation::Init => &layer.format,
        SymObligation::Call(operation) | SymObligation::Cut(operation) => &operation.implementation,
        SymObligation::Tick(tick) | SymObligation::CutTick(tick) => &tick.body,
        SymObligation::Idle | SymObligation::Again => &layer.recover,
    }
}

/// A sum. No machine has memory for so many inputs that their numbers don't fit in 64 digits.
fn sum(a: u64, b: u64) -> Result<u64, NoMemory>
    ensures { IfOk result (λ n. n ≡ a + b) }
{
    match a.checked_add(b) {
        Some(n) => Ok(n),
        None => Err(NoMemory),
    }
}

/// The inputs one kind after another.
fn numbers_from(
    start: u64,
    words: u64,
    places: u64,
    failure: u64,
    waking: u64,
) -> Result<SymNumbers, NoMemory>
    ensures { IfOk result (λ n. numbers_in n ≡ numbers_from start words places failure waking) }
{
    let run = sum(start, words)?;
    let stop = sum(run, places)?;
    let stops = sum(sum(places, places)?, 1)?;
    let last = sum(stop, stops)?;
    let wake = sum(last, failure)?;
    let other = sum(wake, waking)?;
    let next = sum(other, waking)?;
    Ok(SymNumbers {
        args: start,
        run,
        stop,
        last,
        wake,
        other,
        next,
    })
}

/// The inputs of an obligation of a layer, from a number on. Its only error is out of memory.
pub fn numbers_of<'a, B>(
    maker: &Maker<'a, B>,
    obligation: SymObligation<'a>,
    start: u64,
) -> Result<SymNumbers, NoMemory>
    requires { ShapesKept (arguments_of (obligation_of obligation)) }
    ensures { IfOk result (λ n. numbers_in n
        ≡ numbers_of (below_in maker.now.below) (closed maker.now.layer) (obligation_of obligation.entry) start) }
{
    let words = words_in(arguments_of(obligation))?;
    let places_of_run = places(maker.below, block_of(maker.layer.layer, obligation))?;
    let failure = failure_room(maker.below)?;
    let waking = places(maker.below, &maker.layer.layer.recover)?;
    numbers_from(start, words, places_of_run, failure, waking)
}
