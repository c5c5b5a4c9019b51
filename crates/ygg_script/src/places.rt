//! Layers, operations and background steps of a file by their names, and values for the arguments of an operation.

ghost use Rattle.std.specs.Prelude.{◌≡◌, ◌<◌, ◌≤◌, ◌-◌, length, IfOk, IfSome};
ghost use Rattle.std.specs.Option.{option_copied};
ghost use Rattle.ygg_sched.specs.ygg_type.Typed.{operations_at, ticks_at, operation_place, tick_place};
ghost use Rattle.ygg_script.specs.Left.{pieces_left};
ghost use Rattle.ygg_script.specs.Places.{top_operations, arguments_at, layer_place, values_in};

use std::alloc::Global;
use ygg_base::{NoMemory, Text};
use ygg_sched::{Typed, cut, value_in};
use ygg_syntax::lists;
use ygg_syntax::tree::{Declared, Layer};
use ygg_value::Values;

/// The place, from 0, of the topmost layer's operation of a name. Its only error is out of memory.
pub fn operation_named(alloc: Global, typed: &Typed, name: &[u8]) -> Result<Option<u32>, NoMemory>
    ensures { IfOk result (λ found. found ≡ operation_place 0 (top_operations typed.now.file) name.now) }
{
    let layers = typed.layers();
    if layers == 0 {
        return Ok(None);
    }
    let name = Text::from_slice(alloc, name)?;
    Ok(typed.operation(layers - 1, &name))
}

/// The arguments of the topmost layer's operation at a place.
fn arguments_in(layers: &[Layer], op: u32) -> &[Declared]
    ensures { result.now ≡ arguments_at (operations_at layers.now (length layers.now - 1)) op }
{
    if layers.is_empty() {
        return &[];
    }
    match layers[layers.len() - 1]
        .operations
        .as_slice()
        .get(op as usize)
    {
        Some(operation) => lists::declared::as_slice(&operation.arguments),
        None => &[],
    }
}

/// The arguments of the operation at a place of a file's topmost layer.
pub fn arguments_at(typed: &Typed, op: u32) -> &[Declared]
    ensures { result.now ≡ arguments_at (top_operations typed.now.file) op }
{
    arguments_in(lists::layer::as_slice(&typed.file().layers), op)
}

/// The place, from 0, of the first of at most 8 layers that has this name.
fn place_of_layer(layers: &[Layer], name: &[u8]) -> Option<u32>
    requires { length layers.now ≤ 8 }
    ensures place { result ≡ layer_place 0 layers.now name.now }
    ensures within { IfSome result (λ place. place < length layers.now) }
{
    for (place, layer) in layers.iter().enumerate() {
        if layer.name.text.as_slice() == name {
            return Some(place as u32);
        }
    }
    None
}

/// The place, from 0, of a file's first layer of a name.
pub fn layer_named(typed: &Typed, name: &[u8]) -> Option<u32>
    ensures place { result ≡ layer_place 0 typed.now.file.layers name.now }
    ensures within { IfSome result (λ place. place < length typed.now.file.layers) }
{
    place_of_layer(lists::layer::as_slice(&typed.file().layers), name)
}

/// The place, from 0, of a layer's background step of a name. Its only error is out of memory.
pub fn tick_named(
    alloc: Global,
    typed: &Typed,
    layer: u32,
    name: &[u8],
) -> Result<Option<u32>, NoMemory>
    requires { layer < length typed.now.file.layers }
    ensures { IfOk result (λ found. found ≡ tick_place 0 (ticks_at typed.now.file.layers layer) name.now) }
{
    let name = Text::from_slice(alloc, name)?;
    Ok(typed.tick(layer, &name))
}

/// A value for each of these variables, in order, where what may be left of a line has as many words and each is one of its variable's type. Its
/// only error is out of memory.
pub fn values_in(
    alloc: Global,
    declared: &[Declared],
    words: Option<&[u8]>,
) -> Result<Option<Values>, NoMemory>
    ensures { IfOk result (λ found. found ≡ values_in declared.now (pieces_left 32 (option_copied words.entry))) }
{
    let mut values = Values::new(alloc);
    let mut left = words;
    for variable in declared {
        let Some(more) = left else {
            return Ok(None);
        };
        let (word, others) = cut(more, b' ');
        let found = value_in(alloc, variable.shape, word)?;
        let value = match found {
            Some(value) => value,
            None => return Ok(None),
        };
        values.push(value)?;
        left = others;
    }
    if left.is_some() {
        return Ok(None);
    }
    Ok(Some(values))
}
