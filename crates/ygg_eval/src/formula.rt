//! The formulas of a layer.

ghost use Rattle.std.specs.Prelude.{◌≡◌};
ghost use Rattle.std.specs.Option.{option_copied};
ghost use Rattle.ygg_eval.specs.Formulas.{formula_in};

use ygg_syntax::lists;
use ygg_syntax::tree::{Expr, Layer};

/// Which expressions of a layer.
#[derive(Clone, Copy)]
pub enum Which {
    /// `relate`.
    Relate,
    /// Those of `always`.
    Always,
    /// Those of `settled`.
    Settled,
    /// Those of `maybe`.
    Maybe,
}

/// An expression of a layer: the layer's place from the bottom one on, and the expression's place in its list, both from 0.
#[derive(Clone, Copy)]
pub struct Formula {
    pub layer: u32,
    pub which: Which,
    pub number: u32,
}

/// The formula's expression.
pub fn expression_of(layer: &Layer, formula: Formula) -> Option<&Expr>
    ensures { option_copied result ≡ formula_in layer.now formula }
{
    let number = formula.number as usize;
    match formula.which {
        Which::Relate => Some(&layer.relate),
        Which::Always => lists::expr::nth(&layer.always, number),
        Which::Settled => lists::expr::nth(&layer.settled, number),
        Which::Maybe => lists::expr::nth(&layer.maybe, number),
    }
}
