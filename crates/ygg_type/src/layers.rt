//! Typing of layers.

ghost use Rattle.std.specs.Prelude.{◌≡◌, [], OnOk, None};
ghost use Rattle.ygg_type.specs.ygg_syntax.Weights.{weights_of};
ghost use Rattle.ygg_type.specs.ygg_type_rules.Names.{added};
ghost use Rattle.ygg_type.specs.ygg_type_rules.TypeErrors.{first_after};
ghost use Rattle.ygg_type.specs.ygg_type_rules.Definitions.{with_parameters};
ghost use Rattle.ygg_type.specs.ygg_type_rules.Layers.{
  variables_errors,
  with_variables,
  variables_of,
  on_crash_errors,
  operation_blocks_errors,
  operation_errors,
  operations_errors,
  with_operation,
  with_operations,
  tick_errors,
  ticks_errors,
  formulas_errors,
  declared_errors,
  blocks_errors,
  relations_errors,
  parts_errors,
};
ghost use Rattle.ygg_type.specs.Checking.{scope_of};

use crate::checker::Typer;
use crate::declarations::{formula, parameters, viewed};
use crate::limits::are_picks;
use crate::operations::picks;
use crate::shapes;
use std::alloc::Global;
use ygg_base::Reason;
use ygg_list::NoMemory;
use ygg_syntax::tree::{Block, Declared, Expr, Layer, Operation, Tick};
use ygg_syntax::{Weights, lists};
use ygg_type_rules::{Names, Owner, Signature, Variable, Visibility, choices};

/// Variables of a kind, after those that are there.
fn variables<'a>(checker: &mut Typer<'a>, kind: Owner, all: &'a [Declared]) -> Result<(), NoMemory>
    ensures first { OnOk result (checker.new.first.type_error ≡ first_after checker.old.first.type_error
        (variables_errors kind all.now checker.old.variables)) }
    ensures scope { OnOk result (scope_of checker.new ≡ record (scope_of checker.old) { variables = with_variables kind all.now checker.old.variables }) }
{
    for variable in all {
        let name = variable.name.text.as_slice();
        let taken = checker.variables.has(name);
        checker
            .first
            .check(!taken, Reason::Twice, variable.name.place);
        checker.first.type_text(variable.shape);
        let shape = shapes::named(variable.shape);
        checker.variables.add(name, Variable { kind, shape })?;
    }
    Ok(())
}

/// The blocks of an operation, whose arguments are in scope.
fn operation_blocks<'a>(
    checker: &mut Typer<'a>,
    weights: &Weights,
    operation: &'a Operation,
) -> Result<(), NoMemory>
    ensures first { OnOk result (checker.new.first.type_error ≡ first_after checker.old.first.type_error
        (operation_blocks_errors operation.now (weights_of weights.now) (scope_of checker.old))) }
    ensures same { OnOk result (scope_of checker.new ≡ scope_of checker.old) }
{
    let answer = shapes::answer(operation.answer);
    viewed(
        checker,
        weights,
        Visibility::Specification,
        &operation.spec,
        answer,
    )?;
    on_crash(checker, weights, &operation.on_crash)?;
    viewed(
        checker,
        weights,
        Visibility::Implementation,
        &operation.implementation,
        answer,
    )
}

/// An `on crash` block, if there is one.
fn on_crash<'a>(
    checker: &mut Typer<'a>,
    weights: &Weights,
    block: &'a Option<Block>,
) -> Result<(), NoMemory>
    ensures first { OnOk result (checker.new.first.type_error ≡ first_after checker.old.first.type_error
        (on_crash_errors block.now (weights_of weights.now) (scope_of checker.old))) }
    ensures same { OnOk result (scope_of checker.new ≡ scope_of checker.old) }
{
    match block {
        None => Ok(()),
        Some(block) => viewed(checker, weights, Visibility::Specification, block, None),
    }
}

/// An operation after these of its layer, which has this `crash` block; its arguments stay in scope.
fn operation_inside<'a>(
    checker: &mut Typer<'a>,
    weights: &Weights,
    known: &Names<'a, Signature>,
    operation: &'a Operation,
    crash: &'a Block,
) -> Result<(), NoMemory>
    ensures first { OnOk result (checker.new.first.type_error ≡ first_after checker.old.first.type_error
        (operation_errors operation.now crash.now known.now (weights_of weights.now) (scope_of checker.old))) }
    ensures scope { OnOk result (scope_of checker.new ≡ with_parameters operation.now.arguments (scope_of checker.old)) }
{
    let taken = known.has(operation.name.text.as_slice());
    checker
        .first
        .check(!taken, Reason::Twice, operation.name.place);
    picks(&mut checker.first, operation, crash);
    parameters(checker, lists::declared::as_slice(&operation.arguments))?;
    checker.first.answer_type(operation.answer);
    operation_blocks(checker, weights, operation)
}

/// Makes an operation known.
fn add_operation<'a>(
    alloc: Global,
    known: &mut Names<'a, Signature>,
    operation: &'a Operation,
) -> Result<(), NoMemory>
    ensures { OnOk result (known.new ≡ with_operation operation.now known.old) }
{
    let arguments = shapes::all(alloc, lists::declared::as_slice(&operation.arguments))?;
    known.add(
        operation.name.text.as_slice(),
        Signature {
            arguments,
            answers: operation.answer.is_some(),
            answer: shapes::answer(operation.answer),
        },
    )
}

/// An operation after these of its layer, which has this `crash` block.
fn operation<'a>(
    checker: &mut Typer<'a>,
    weights: &Weights,
    known: &mut Names<'a, Signature>,
    operation: &'a Operation,
    crash: &'a Block,
) -> Result<(), NoMemory>
    ensures first { OnOk result (checker.new.first.type_error ≡ first_after checker.old.first.type_error
        (operation_errors operation.now crash.now known.old (weights_of weights.now) (scope_of checker.old))) }
    ensures same { OnOk result (scope_of checker.new ≡ scope_of checker.old) }
    ensures known { OnOk result (known.new ≡ with_operation operation.now known.old) }
{
    let before = checker.locals.len();
    operation_inside(checker, weights, known, operation, crash)?;
    checker.forget(before);
    add_operation(checker.alloc, known, operation)
}

/// The operations of a layer with this `crash` block, after those that are known.
fn operations<'a>(
    checker: &mut Typer<'a>,
    weights: &Weights,
    known: &mut Names<'a, Signature>,
    all: &'a [Operation],
    crash: &'a Block,
) -> Result<(), NoMemory>
    ensures known { OnOk result (known.new ≡ with_operations all.now known.old) }
    ensures first { OnOk result (checker.new.first.type_error ≡ first_after checker.old.first.type_error
        (operations_errors all.now crash.now known.old (weights_of weights.now) (scope_of checker.old))) }
    ensures same { OnOk result (scope_of checker.new ≡ scope_of checker.old) }
{
    for one in all {
        operation(checker, weights, known, one, crash)?;
    }
    Ok(())
}

/// A background step after those of these names.
fn tick<'a>(
    checker: &mut Typer<'a>,
    weights: &Weights,
    known: &mut Names<'a, ()>,
    tick: &'a Tick,
) -> Result<(), NoMemory>
    ensures first { OnOk result (checker.new.first.type_error ≡ first_after checker.old.first.type_error
        (tick_errors tick.now known.old (weights_of weights.now) (scope_of checker.old))) }
    ensures same { OnOk result (scope_of checker.new ≡ scope_of checker.old) }
    ensures known { OnOk result (known.new ≡ added tick.now.name.text tt known.old) }
{
    let name = tick.name.text.as_slice();
    let taken = known.has(name);
    checker.first.check(!taken, Reason::Twice, tick.name.place);
    viewed(
        checker,
        weights,
        Visibility::Implementation,
        &tick.body,
        None,
    )?;
    known.add(name, ())
}

/// Background steps after those of these names.
fn ticks_after<'a>(
    checker: &mut Typer<'a>,
    weights: &Weights,
    known: &mut Names<'a, ()>,
    all: &'a [Tick],
) -> Result<(), NoMemory>
    ensures first { OnOk result (checker.new.first.type_error ≡ first_after checker.old.first.type_error
        (ticks_errors all.now known.old (weights_of weights.now) (scope_of checker.old))) }
    ensures same { OnOk result (scope_of checker.new ≡ scope_of checker.old) }
{
    for one in all {
        tick(checker, weights, known, one)?;
    }
    Ok(())
}

/// The background steps of a layer.
fn ticks<'a>(checker: &mut Typer<'a>, weights: &Weights, all: &'a [Tick]) -> Result<(), NoMemory>
    ensures first { OnOk result (checker.new.first.type_error ≡ first_after checker.old.first.type_error
        (ticks_errors all.now [] (weights_of weights.now) (scope_of checker.old))) }
    ensures same { OnOk result (scope_of checker.new ≡ scope_of checker.old) }
{
    let mut known = Names::new(checker.alloc);
    ticks_after(checker, weights, &mut known, all)
}

/// Expressions of a layer with this view of it.
fn formulas<'a>(
    checker: &mut Typer<'a>,
    weights: &Weights,
    view: Visibility,
    all: &'a [Expr],
) -> Result<(), NoMemory>
    ensures first { OnOk result (checker.new.first.type_error ≡ first_after checker.old.first.type_error
        (formulas_errors view all.now (weights_of weights.now) (scope_of checker.old))) }
    ensures same { OnOk result (scope_of checker.new ≡ scope_of checker.old) }
{
    for e in all {
        formula(checker, weights, view, e)?;
    }
    Ok(())
}

/// What relates a layer to the machine below, and what its author states of it.
fn relations<'a>(
    checker: &mut Typer<'a>,
    weights: &Weights,
    layer: &'a Layer,
) -> Result<(), NoMemory>
    ensures first { OnOk result (checker.new.first.type_error ≡ first_after checker.old.first.type_error
        (relations_errors layer.now (weights_of weights.now) (scope_of checker.old))) }
    ensures same { OnOk result (scope_of checker.new ≡ scope_of checker.old) }
{
    formula(checker, weights, Visibility::Relation, &layer.relate)?;
    formulas(
        checker,
        weights,
        Visibility::Relation,
        lists::expr::as_slice(&layer.always),
    )?;
    formulas(
        checker,
        weights,
        Visibility::Settled,
        lists::expr::as_slice(&layer.settled),
    )?;
    formulas(
        checker,
        weights,
        Visibility::Relation,
        lists::expr::as_slice(&layer.maybe),
    )
}

/// The blocks of a layer outside its operations and background steps.
#[tactic(auto, using(crate::proofs::Counted::picks_stay))]
fn blocks<'a>(checker: &mut Typer<'a>, weights: &Weights, layer: &'a Layer) -> Result<(), NoMemory>
    ensures first { OnOk result (checker.new.first.type_error ≡ first_after checker.old.first.type_error
        (blocks_errors layer.now (weights_of weights.now) (scope_of checker.old))) }
    ensures same { OnOk result (scope_of checker.new ≡ scope_of checker.old) }
{
    viewed(
        checker,
        weights,
        Visibility::Specification,
        &layer.start,
        None,
    )?;
    viewed(
        checker,
        weights,
        Visibility::Implementation,
        &layer.format,
        None,
    )?;
    viewed(
        checker,
        weights,
        Visibility::Specification,
        &layer.crash,
        None,
    )?;
    checker.first.check(
        are_picks(choices(&layer.crash)),
        Reason::TooManyChoices,
        layer.crash_place,
    );
    viewed(
        checker,
        weights,
        Visibility::Implementation,
        &layer.recover,
        None,
    )
}

/// The state and memory variables of a layer, of which none are there yet.
fn declared<'a>(checker: &mut Typer<'a>, layer: &'a Layer) -> Result<(), NoMemory>
    requires { checker.old.variables ≡ [] }
    ensures first { OnOk result (checker.new.first.type_error ≡ first_after checker.old.first.type_error (declared_errors layer.now)) }
    ensures scope { OnOk result (scope_of checker.new ≡ record (scope_of checker.old) { variables = variables_of layer.now }) }
{
    variables(
        checker,
        Owner::State,
        lists::declared::as_slice(&layer.state),
    )?;
    variables(
        checker,
        Owner::Memory,
        lists::declared::as_slice(&layer.memory),
    )
}

/// All parts of a layer, whose variables are not there yet. Its operations replace those that are known.
pub fn parts<'a>(
    checker: &mut Typer<'a>,
    weights: &Weights,
    known: &mut Names<'a, Signature>,
    layer: &'a Layer,
) -> Result<(), NoMemory>
    requires { checker.old.variables ≡ [] }
    ensures known { OnOk result (known.new ≡ with_operations layer.now.operations []) }
    ensures first { OnOk result (checker.new.first.type_error ≡ first_after checker.old.first.type_error
        (parts_errors layer.now (weights_of weights.now) (record (scope_of checker.old) { variables = variables_of layer.now }))) }
    ensures scope { OnOk result (scope_of checker.new ≡ record (scope_of checker.old) { variables = variables_of layer.now }) }
{
    declared(checker, layer)?;
    blocks(checker, weights, layer)?;
    known.truncate(0);
    operations(
        checker,
        weights,
        known,
        lists::operation::as_slice(&layer.operations),
        &layer.crash,
    )?;
    ticks(checker, weights, lists::tick::as_slice(&layer.ticks))?;
    relations(checker, weights, layer)
}
