//! The blocks of a layer, and what they see.

ghost use Rattle.std.specs.Prelude.{◌≡◌};
ghost use Rattle.std.specs.Option.{option_copied};
ghost use Rattle.ygg_eval.specs.Bodies.{block_in, variables_in, arguments_at, arguments_in};

use crate::body::Part;
use ygg_syntax::lists;
use ygg_syntax::tree::{Block, Declared, Layer};

/// The block of a layer that is meant, if there is one.
pub fn block_of(layer: &Layer, part: Part, number: u32) -> Option<&Block>
    ensures { option_copied result ≡ block_in layer.now part number }
{
    match part {
        Part::Start => Some(&layer.start),
        Part::Spec => match lists::operation::get(&layer.operations, number as usize) {
            Some(operation) => Some(&operation.spec),
            None => None,
        },
        Part::OnCrash => match lists::operation::get(&layer.operations, number as usize) {
            Some(operation) => operation.on_crash.as_ref(),
            None => None,
        },
        Part::Crash => Some(&layer.crash),
        Part::Format => Some(&layer.format),
        Part::Impl => match lists::operation::get(&layer.operations, number as usize) {
            Some(operation) => Some(&operation.implementation),
            None => None,
        },
        Part::Tick => match lists::tick::get(&layer.ticks, number as usize) {
            Some(tick) => Some(&tick.body),
            None => None,
        },
        Part::Recover => Some(&layer.recover),
    }
}

/// The variables that a block of the part changes.
pub fn variables_of(layer: &Layer, part: Part) -> &[Declared]
    ensures { result.now ≡ variables_in layer.now part }
{
    match part {
        Part::Start | Part::Spec | Part::OnCrash | Part::Crash => lists::declared::as_slice(
            &layer.state,
        ),
        Part::Format | Part::Impl | Part::Tick | Part::Recover => lists::declared::as_slice(
            &layer.memory,
        ),
    }
}

/// The arguments of a layer's operation.
fn arguments_at(layer: &Layer, number: u32) -> &[Declared]
    ensures { result.now ≡ arguments_at layer.now number }
{
    match lists::operation::get(&layer.operations, number as usize) {
        Some(operation) => lists::declared::as_slice(&operation.arguments),
        None => &[],
    }
}

/// The arguments that a block of the part sees.
pub fn arguments_of(layer: &Layer, part: Part, number: u32) -> &[Declared]
    ensures { result.now ≡ arguments_in layer.now part number }
{
    match part {
        Part::Spec | Part::OnCrash | Part::Impl => arguments_at(layer, number),
        Part::Start | Part::Crash | Part::Format | Part::Tick | Part::Recover => &[],
    }
}
