//! Whether a block may be run with some values.

ghost use Rattle.std.specs.Prelude.{◌≡◌, ◌↔◌, IsTrue};
ghost use Rattle.ygg_eval.specs.Bodies.{IsRunnable};
ghost use Rattle.ygg_eval.specs.Running.{runs_in};

use crate::shapes::values_fit;
use crate::{Body, Typed, arguments_of, block_of, variables_of};
use ygg_syntax::lists;
use ygg_syntax::tree::Layer;
use ygg_value::Values;

/// Whether a layer has the block, and the values have the shapes that are declared.
fn runs_in(layer: &Layer, body: Body, args: &Values, state: &Values) -> bool
    ensures { result ≡ runs_in body args.now state.now layer.now }
{
    if block_of(layer, body.part, body.number).is_none() {
        return false;
    }
    if !values_fit(arguments_of(layer, body.part, body.number), args.as_slice()) {
        return false;
    }
    values_fit(variables_of(layer, body.part), state.as_slice())
}

/// Whether the block is one of the file, and the values have the shapes that are declared: what `run_body` asks.
pub fn is_runnable(typed: &Typed, body: Body, args: &Values, state: &Values) -> bool
    ensures { IsTrue result ↔ IsRunnable typed.now.file body args.now state.now }
{
    match lists::layer::get(&typed.file().layers, body.layer as usize) {
        Some(layer) => runs_in(layer, body, args, state),
        None => false,
    }
}
