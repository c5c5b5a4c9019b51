//! Typing of definitions.

ghost use Rattle.std.specs.Prelude.{◌≡◌, ◌++◌, ◌∷◌, [], OnOk};
ghost use Rattle.ygg_type.specs.ygg_syntax.Weights.{weights_of, expr_weight};
ghost use Rattle.ygg_type.specs.ygg_type_rules.TypeErrors.{first_after};
ghost use Rattle.ygg_type.specs.ygg_type_rules.Definitions.{definition_errors, definitions_errors, definition_scope};
ghost use Rattle.ygg_type.specs.ygg_type_rules.Definitions.{with_definition, with_definitions, with_parameters};
ghost use Rattle.ygg_type.specs.Checking.{scope_of};

use crate::checker::Typer;
use crate::declarations::parameters;
use crate::shapes;
use ygg_base::Reason;
use ygg_list::NoMemory;
use ygg_syntax::tree::Def;
use ygg_syntax::{Weights, lists};
use ygg_type_rules::Signature;

/// The type errors of a definition, whose parameters stay in scope.
fn type_errors<'a>(
    checker: &mut Typer<'a>,
    weights: &mut Weights<'a>,
    def: &'a Def,
) -> Result<(), NoMemory>
    requires { scope_of checker.old ≡ definition_scope checker.old.defs }
    ensures first { OnOk result (checker.new.first.type_error ≡ first_after checker.old.first.type_error
        (definition_errors def.now (expr_weight (weights_of weights.old) def.now.body) checker.old.defs)) }
    ensures scope { OnOk result (scope_of checker.new ≡ with_parameters def.now.parameters (scope_of checker.old)) }
    ensures weights { OnOk result (weights.new ≡ weights.old ++ def.now ∷ []) }
{
    let taken = checker.defs.has(def.name.text.as_slice());
    checker.first.check(!taken, Reason::Twice, def.name.place);
    parameters(checker, lists::declared::as_slice(&def.parameters))?;
    checker.first.type_text(def.shape);
    let weight = weights.define(def)?;
    checker.claim(&def.body, shapes::named(def.shape), weight)
}

/// Makes a definition known to those after it, and forgets its parameters.
fn define<'a>(checker: &mut Typer<'a>, def: &'a Def) -> Result<(), NoMemory>
    ensures first { OnOk result (checker.new.first ≡ checker.old.first) }
    ensures scope { OnOk result (scope_of checker.new ≡ record (scope_of checker.old) { defs = with_definition def.now checker.old.defs; locals = [] }) }
{
    checker.forget(0);
    let arguments = shapes::all(checker.alloc, lists::declared::as_slice(&def.parameters))?;
    checker.defs.add(
        def.name.text.as_slice(),
        Signature {
            arguments,
            answers: true,
            answer: shapes::named(def.shape),
        },
    )
}

/// One more definition.
fn next<'a>(
    checker: &mut Typer<'a>,
    weights: &mut Weights<'a>,
    def: &'a Def,
) -> Result<(), NoMemory>
    requires { scope_of checker.old ≡ definition_scope checker.old.defs }
    ensures first { OnOk result (checker.new.first.type_error ≡ first_after checker.old.first.type_error
        (definition_errors def.now (expr_weight (weights_of weights.old) def.now.body) checker.old.defs)) }
    ensures scope { OnOk result (scope_of checker.new ≡ definition_scope (with_definition def.now checker.old.defs)) }
    ensures weights { OnOk result (weights.new ≡ weights.old ++ def.now ∷ []) }
{
    type_errors(checker, weights, def)?;
    define(checker, def)
}

/// Definitions in order, after those that the checker and the table of weights have.
pub fn definitions<'a>(
    checker: &mut Typer<'a>,
    weights: &mut Weights<'a>,
    defs: &'a [Def],
) -> Result<(), NoMemory>
    requires { scope_of checker.old ≡ definition_scope checker.old.defs }
    ensures first { OnOk result (checker.new.first.type_error ≡ first_after checker.old.first.type_error
        (definitions_errors defs.now weights.old checker.old.defs)) }
    ensures scope { OnOk result (scope_of checker.new ≡ definition_scope (with_definitions defs.now checker.old.defs)) }
    ensures weights { OnOk result (weights.new ≡ weights.old ++ defs.now) }
{
    for def in defs {
        next(checker, weights, def)?;
    }
    Ok(())
}
