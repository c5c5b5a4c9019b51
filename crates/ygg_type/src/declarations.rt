//! What declarations have in common.

ghost use Rattle.std.specs.Prelude.{◌≡◌, OnOk};
ghost use Rattle.ygg_type.specs.ygg_syntax.Weights.{weights_of, expr_weight, block_weight};
ghost use Rattle.ygg_type.specs.ygg_type_rules.TypeErrors.{first_after};
ghost use Rattle.ygg_type.specs.ygg_type_rules.Scopes.{seen_as};
ghost use Rattle.ygg_type.specs.ygg_type_rules.Definitions.{parameters_errors, with_parameters, claim_errors};
ghost use Rattle.ygg_type.specs.ygg_type_rules.Layers.{view_errors, formula_errors};
ghost use Rattle.ygg_type.specs.Checking.{scope_of};

use crate::checker::Typer;
use crate::shapes;
use crate::statements::body;
use ygg_base::Reason;
use ygg_list::NoMemory;
use ygg_syntax::Weights;
use ygg_syntax::tree::{Block, Declared, Expr};
use ygg_type_rules::Visibility;
use ygg_value::Shape;

/// Parameters or arguments, whose names stay in scope.
pub fn parameters<'a>(checker: &mut Typer<'a>, all: &'a [Declared]) -> Result<(), NoMemory>
    ensures first { OnOk result (checker.new.first.type_error ≡ first_after checker.old.first.type_error (parameters_errors all.now (scope_of checker.old))) }
    ensures scope { OnOk result (scope_of checker.new ≡ with_parameters all.now (scope_of checker.old)) }
{
    for parameter in all {
        let name = parameter.name.text.as_slice();
        let taken = checker.is_taken(name);
        checker
            .first
            .check(!taken, Reason::Twice, parameter.name.place);
        checker.first.type_text(parameter.shape);
        checker.add_local(name, shapes::named(parameter.shape), false)?;
    }
    Ok(())
}

/// A block that stands in no other, with this view of its layer, and with an answer of this shape where one is wanted.
#[tactic(auto, using(crate::proofs::Weighed::weighed_body))]
pub fn viewed<'a>(
    checker: &mut Typer<'a>,
    weights: &Weights,
    view: Visibility,
    b: &'a Block,
    shape: Option<Shape>,
) -> Result<(), NoMemory>
    ensures first { OnOk result (checker.new.first.type_error ≡ first_after checker.old.first.type_error
        (view_errors view b.now shape (weights_of weights.now) (scope_of checker.old))) }
    ensures same { OnOk result (scope_of checker.new ≡ scope_of checker.old) }
{
    let before = checker.view;
    checker.view = view;
    let done = body(checker, b, shape, weights.block(b));
    checker.view = before;
    done
}

/// An expression of a layer with this view of it, which is to be a word of width 1.
#[tactic(auto, using(crate::proofs::Weighed::weighed_claim))]
pub fn formula<'a>(
    checker: &mut Typer<'a>,
    weights: &Weights,
    view: Visibility,
    e: &'a Expr,
) -> Result<(), NoMemory>
    ensures first { OnOk result (checker.new.first.type_error ≡ first_after checker.old.first.type_error
        (formula_errors view e.now (weights_of weights.now) (scope_of checker.old))) }
    ensures same { OnOk result (scope_of checker.new ≡ scope_of checker.old) }
{
    let before = checker.view;
    checker.view = view;
    let done = checker.claim(e, Some(Shape::Word { width: 1 }), weights.expression(e));
    checker.view = before;
    done
}
