//! Runs of such blocks.

ghost use Rattle.std.specs.Prelude.{◌≡◌, IfOk};
ghost use Rattle.ygg_eval_places.specs.ygg_meaning_laws.Direct.{room_of};
ghost use Rattle.ygg_syntax.specs.declared.tree.Block.{Block};
ghost use Rattle.ygg_syntax.specs.declared.tree.Layer.{Layer};
ghost use Rattle.ygg_syntax.specs.declared.grammar.BlockKind.TheVariants as kind;
ghost use Rattle.ygg_eval_places.specs.Chosen.{BlockChose};
ghost use Rattle.ygg_eval_places.specs.ygg_eval.Bodies.{IsBlock, IsRunnable, kind_of};

use crate::bits::Choices;
use crate::choices::ChoicePlaces;
use crate::{room, run_places};
use std::alloc::Global;
use ygg_base::Bits;
use ygg_eval::{Body, Typed, block_of};
use ygg_list::NoMemory;
use ygg_syntax::lists;
use ygg_value::{Value, Values};

/// Runs a block of a layer's specification to its end, each choice taking the bit of its place, and gives its answer. The picks that it takes
/// are put after others. Its only error is out of memory, after which nothing is said of the values and the picks.
pub fn run_choices(
    alloc: Global,
    typed: &Typed,
    body: Body,
    args: &Values,
    values: &mut Values,
    choices: Choices<'_>,
    picks: &mut Bits,
) -> Result<Option<Value>, NoMemory>
    requires body { IsRunnable typed.now.file body args.now values.old }
    requires kind { kind_of body.part ≡ kind.Spec }
    ensures chose { IfOk result (λ answer. BlockChose typed.now.file body args.now values.old choices.entry answer values.new picks.old picks.new) }
{
    let machine = ChoicePlaces {
        typed,
        number: body.layer,
        choices,
    };
    run_places(alloc, typed, body, args, values, &machine, picks)
}

/// How many choices a block of a layer's specification has in the unrolled text. Its only error is out of memory, where they are 2^64 or more.
pub fn choices_room(typed: &Typed, body: Body) -> Result<u64, NoMemory>
    requires there { (l : Layer) × (b : Block) × IsBlock typed.now.file body l b }
    ensures room { IfOk result (λ n. (l : Layer) (b : Block) → IsBlock typed.now.file body l b → n ≡ room_of (λ f. 1) b) }
{
    let Some(layer) = lists::layer::get(&typed.file().layers, body.layer as usize) else {
        unreachable!();
    };
    let Some(block) = block_of(layer, body.part, body.number) else {
        unreachable!();
    };
    let machine = ChoicePlaces {
        typed,
        number: body.layer,
        choices: Choices {
            bits: &[],
            first: 0,
        },
    };
    room(&machine, block)
}
