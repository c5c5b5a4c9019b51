//! The names of obligations.

ghost use Rattle.std.specs.Prelude.{◌≡◌, ◌++◌, IfOk};
ghost use Rattle.ygg_meaning.specs.Obligations.{name_of};
ghost use Rattle.ygg_oblige_list.specs.InCode.{obligation_of};

use crate::obligation::SymObligation;
use std::alloc::Global;
use ygg_base::Text;
use ygg_list::NoMemory;
use ygg_syntax::tree::{Layer, Name};

/// A layer's name with a mark after it.
fn marked(alloc: Global, layer: &Name, mark: &[u8]) -> Result<Text, NoMemory>
    ensures { IfOk result (λ t. t ≡ layer.now.text ++ mark.now) }
{
    let mut text = layer.text.copy(alloc)?;
    text.extend_from_slice(mark)?;
    Ok(text)
}

/// A layer's name with a mark and a name after it.
fn marked_of(alloc: Global, layer: &Name, mark: &[u8], own: &Name) -> Result<Text, NoMemory>
    ensures { IfOk result (λ t. t ≡ layer.now.text ++ (mark.now ++ own.now.text)) }
{
    let mut text = marked(alloc, layer, mark)?;
    text.extend_from_slice(own.text.as_slice())?;
    Ok(text)
}

/// The name of an obligation of a layer. Its only error is out of memory.
pub fn name_of(
    alloc: Global,
    layer: &Layer,
    obligation: SymObligation<'_>,
) -> Result<Text, NoMemory>
    ensures { IfOk result (λ t. t ≡ name_of layer.now.name.text (obligation_of obligation.entry)) }
{
    let name = &layer.name;
    match obligation {
        SymObligation::Init => marked(alloc, name, b".init"),
        SymObligation::Call(operation) => marked_of(alloc, name, b".call.", &operation.name),
        SymObligation::Cut(operation) => marked_of(alloc, name, b".cut.", &operation.name),
        SymObligation::Tick(tick) => marked_of(alloc, name, b".tick.", &tick.name),
        SymObligation::CutTick(tick) => marked_of(alloc, name, b".cuttick.", &tick.name),
        SymObligation::Idle => marked(alloc, name, b".idle"),
        SymObligation::Again => marked(alloc, name, b".again"),
    }
}
