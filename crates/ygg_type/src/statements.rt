ghost use Rattle.std.specs.Prelude.{◌≡◌, IfOk, OnOk, map, None};
ghost use Rattle.std.specs.Option.{option_copied};
ghost use Rattle.ygg_type.specs.ygg_type_rules.TypeErrors.{first_after};
ghost use Rattle.ygg_type.specs.ygg_type_rules.Expressions.{with_number};
ghost use Rattle.ygg_type.specs.ygg_type_rules.Statements.{
  call_rule,
  call_typing,
  source_typing,
  target_rule,
  indexed,
  place_rule,
  assignment_errors,
  let_rule,
  walked,
  in_order,
  return_errors,
  block_errors,
  body_errors,
};
ghost use Rattle.ygg_type.specs.Checking.{scope_of, Grows};

use crate::checker::Typer;
use crate::first::First;
use crate::limits::is_weight;
use crate::rules::all_shaped;
use crate::shapes;
use ygg_base::Reason;
use ygg_list::NoMemory;
use ygg_syntax::lists;
use ygg_syntax::tree::{Block, Expr, Index, Name, Numeral, Place, Source, Stmt};
use ygg_type_rules::{Local, Signature, TypedExpr};
use ygg_value::Shape;

/// The rule of a call of an operation, or of no operation, whose answer is used or dropped.
fn operation(
    first: &mut First,
    used: bool,
    f: &Name,
    operation: Option<&Signature>,
    parts: &[TypedExpr],
) -> Option<Shape>
    ensures shape { result ≡ (call_rule used f.now (option_copied operation.entry) parts.now).shape }
    ensures first { first.new.type_error ≡ first_after first.old.type_error (call_rule used f.now (option_copied operation.entry) parts.now).type_errors }
{
    match operation {
        None => {
            first.add(f.place, Reason::Unknown);
            None
        }
        Some(operation) => {
            let answers = first.check(!used || operation.answers, Reason::Shape, f.place);
            let right = first.arguments(f, operation.arguments.as_slice(), parts);
            if answers && right && all_shaped(parts) {
                operation.answer
            } else {
                None
            }
        }
    }
}

/// The rule of a name that is assigned to, and that means this.
fn target(first: &mut First, x: &Name, meaning: Option<Local>) -> Option<Shape>
    ensures shape { result ≡ (target_rule x.now meaning).shape }
    ensures first { first.new.type_error ≡ first_after first.old.type_error (target_rule x.now meaning).type_errors }
{
    match meaning {
        Some(local) if local.assignable => local.shape,
        _ => {
            first.add(x.place, Reason::Unknown);
            None
        }
    }
}

/// A call of the machine below, whose first token stands there and whose answer is used or dropped.
fn call<'a>(
    checker: &mut Typer<'a>,
    at: Place,
    used: bool,
    f: &'a Name,
    arguments: &'a [Expr],
) -> Result<TypedExpr, NoMemory>
    ensures part { IfOk result (λ p. p ≡ (call_typing at used f.now arguments.now (scope_of checker.old)).part) }
    ensures first { OnOk result (checker.new.first.type_error ≡ first_after checker.old.first.type_error
        (call_typing at used f.now arguments.now (scope_of checker.old)).type_errors) }
    ensures same { OnOk result (scope_of checker.new ≡ scope_of checker.old) }
{
    let parts = checker.infer_all(arguments)?;
    let found = checker.lower.find(f.text.as_slice());
    Ok(TypedExpr {
        place: at,
        shape: operation(&mut checker.first, used, f, found, parts.as_slice()),
    })
}

/// A right side.
fn source<'a>(checker: &mut Typer<'a>, from: &'a Source) -> Result<TypedExpr, NoMemory>
    ensures part { IfOk result (λ p. p ≡ (source_typing from.now (scope_of checker.old)).part) }
    ensures first { OnOk result (checker.new.first.type_error ≡ first_after checker.old.first.type_error
        (source_typing from.now (scope_of checker.old)).type_errors) }
    ensures same { OnOk result (scope_of checker.new ≡ scope_of checker.old) }
{
    match from {
        Source::Value(e) => checker.infer(e),
        Source::Choose(at) => Ok(TypedExpr {
            place: *at,
            shape: Some(Shape::Word { width: 1 }),
        }),
        Source::Call(at, f, arguments) => call(
            checker,
            *at,
            true,
            f,
            lists::expr::as_slice(arguments),
        ),
    }
}

/// The part of a value of this shape that indices lead to.
fn part_at<'a>(
    checker: &mut Typer<'a>,
    whole: Option<Shape>,
    indices: &'a [Index],
) -> Result<Option<Shape>, NoMemory>
    ensures shape { IfOk result (λ s. s ≡ (indexed indices.now (scope_of checker.old) whole).shape) }
    ensures first { OnOk result (checker.new.first.type_error ≡ first_after checker.old.first.type_error
        (indexed indices.now (scope_of checker.old) whole).type_errors) }
    ensures same { OnOk result (scope_of checker.new ≡ scope_of checker.old) }
{
    let mut shape = whole;
    for index in indices {
        let at = checker.infer(&index.at)?;
        shape = checker.first.index(shape, index.bracket, at);
    }
    Ok(shape)
}

/// The place of an assignment.
fn place<'a>(
    checker: &mut Typer<'a>,
    x: &'a Name,
    indices: &'a [Index],
) -> Result<Option<Shape>, NoMemory>
    ensures shape { IfOk result (λ s. s ≡ (place_rule x.now indices.now (scope_of checker.old)).shape) }
    ensures first { OnOk result (checker.new.first.type_error ≡ first_after checker.old.first.type_error
        (place_rule x.now indices.now (scope_of checker.old)).type_errors) }
    ensures same { OnOk result (scope_of checker.new ≡ scope_of checker.old) }
{
    let meaning = checker.meaning(x.text.as_slice());
    let whole = target(&mut checker.first, x, meaning);
    part_at(checker, whole, indices)
}

/// An assignment.
fn assignment<'a>(
    checker: &mut Typer<'a>,
    x: &'a Name,
    indices: &'a [Index],
    from: &'a Source,
) -> Result<(), NoMemory>
    ensures first { OnOk result (checker.new.first.type_error ≡ first_after checker.old.first.type_error
        (assignment_errors (place_rule x.now indices.now (scope_of checker.old)) (source_typing from.now (scope_of checker.old)))) }
    ensures same { OnOk result (scope_of checker.new ≡ scope_of checker.old) }
{
    let place = place(checker, x, indices)?;
    let from = source(checker, from)?;
    checker.first.wanted(from, place);
    Ok(())
}

/// A `let`, whose name stays in scope.
fn binding<'a>(checker: &mut Typer<'a>, x: &'a Name, from: &'a Source) -> Result<(), NoMemory>
    ensures first { OnOk result (checker.new.first.type_error ≡ first_after checker.old.first.type_error
        (let_rule x.now (source_typing from.now (scope_of checker.old)) (scope_of checker.old)).type_errors) }
    ensures scope { OnOk result (scope_of checker.new ≡ (let_rule x.now (source_typing from.now (scope_of checker.old)) (scope_of checker.old)).scope) }
    ensures grows { OnOk result (Grows (scope_of checker.old) (scope_of checker.new)) }
{
    let name = x.text.as_slice();
    let taken = checker.is_taken(name);
    checker.first.check(!taken, Reason::Twice, x.place);
    let from = source(checker, from)?;
    checker.add_local(name, from.shape, true)
}

/// What a block returns.
fn answer<'a>(
    checker: &mut Typer<'a>,
    answer: &'a Option<Expr>,
    shape: Option<Shape>,
) -> Result<(), NoMemory>
    ensures first { OnOk result (checker.new.first.type_error ≡ first_after checker.old.first.type_error
        (return_errors answer.now shape (scope_of checker.old))) }
    ensures same { OnOk result (scope_of checker.new ≡ scope_of checker.old) }
{
    if let Some(e) = answer {
        checker.expect(e, shape)?;
    }
    Ok(())
}

/// A statement. Its only error is out of memory.
#[cycle(walk)]
#[tactic(auto, using(crate::proofs::Restored::grows_same, crate::proofs::Restored::grows_local))]
fn statement<'a>(checker: &mut Typer<'a>, one: &'a Stmt) -> Result<(), NoMemory>
    ensures first { OnOk result (checker.new.first.type_error ≡ first_after checker.old.first.type_error (walked one.now (scope_of checker.old)).type_errors) }
    ensures scope { OnOk result (scope_of checker.new ≡ (walked one.now (scope_of checker.old)).scope) }
    ensures grows { OnOk result (Grows (scope_of checker.old) (scope_of checker.new)) }
{
    match one {
        Stmt::Let(x, from) => binding(checker, x, from),
        Stmt::Assign(x, indices, from) => {
            assignment(checker, x, lists::index::as_slice(indices), from)
        }
        Stmt::If(test, first, second) => {
            checker.expect(test, Some(Shape::Word { width: 1 }))?;
            block(checker, first, None)?;
            block(checker, second, None)
        }
        Stmt::For(x, w, n, each) => {
            let taken = checker.is_taken(x.text.as_slice());
            checker.first.number(x, taken, *w, *n);
            repeated(checker, x, *w, each)
        }
        Stmt::Call(f, arguments) => {
            call(checker, f.place, false, f, lists::expr::as_slice(arguments))?;
            Ok(())
        }
    }
}

/// Statements one after another.
#[cycle(walk)]
#[tactic(auto, using(crate::proofs::Restored::grows_same, crate::proofs::Restored::grows_on))]
fn statements<'a>(checker: &mut Typer<'a>, all: &'a [Stmt]) -> Result<(), NoMemory>
    ensures first { OnOk result (checker.new.first.type_error ≡ first_after checker.old.first.type_error
        (in_order (map walked all.now) (scope_of checker.old)).type_errors) }
    ensures scope { OnOk result (scope_of checker.new ≡ (in_order (map walked all.now) (scope_of checker.old)).scope) }
    ensures grows { OnOk result (Grows (scope_of checker.old) (scope_of checker.new)) }
{
    for one in all {
        statement(checker, one)?;
    }
    Ok(())
}

/// A block, whose names stay in scope.
#[cycle(walk)]
#[tactic(auto, using(crate::proofs::Restored::grows_same, crate::proofs::Restored::grows_on))]
fn inside<'a>(checker: &mut Typer<'a>, b: &'a Block, shape: Option<Shape>) -> Result<(), NoMemory>
    ensures first { OnOk result (checker.new.first.type_error ≡ first_after checker.old.first.type_error (block_errors b.now shape (scope_of checker.old))) }
    ensures grows { OnOk result (Grows (scope_of checker.old) (scope_of checker.new)) }
{
    statements(checker, lists::stmt::as_slice(&b.statements))?;
    answer(checker, &b.answer, shape)
}

/// A block, with an answer of this shape where one is wanted. Its only error is out of memory.
#[cycle(walk)]
#[tactic(auto, using(crate::proofs::Restored::cut_to))]
fn block<'a>(checker: &mut Typer<'a>, b: &'a Block, shape: Option<Shape>) -> Result<(), NoMemory>
    ensures first { OnOk result (checker.new.first.type_error ≡ first_after checker.old.first.type_error (block_errors b.now shape (scope_of checker.old))) }
    ensures same { OnOk result (scope_of checker.new ≡ scope_of checker.old) }
{
    let outside = checker.locals.len();
    let done = inside(checker, b, shape);
    checker.forget(outside);
    done
}

/// The block of a loop, with its number.
#[cycle(walk)]
#[tactic(auto, using(crate::proofs::Restored::cut_to, crate::proofs::Restored::grows_local))]
fn repeated<'a>(
    checker: &mut Typer<'a>,
    x: &'a Name,
    w: Numeral,
    each: &'a Block,
) -> Result<(), NoMemory>
    ensures first { OnOk result (checker.new.first.type_error ≡ first_after checker.old.first.type_error
        (block_errors each.now None (with_number x.now w (scope_of checker.old)))) }
    ensures same { OnOk result (scope_of checker.new ≡ scope_of checker.old) }
{
    let before = checker.locals.len();
    checker.add_local(x.text.as_slice(), shapes::word(w.value), false)?;
    let done = block(checker, each, None);
    checker.forget(before);
    done
}

/// A block that stands in no other, with an answer of this shape where one is wanted, and that has this weight. Its only
/// error is out of memory.
pub fn body<'a>(
    checker: &mut Typer<'a>,
    b: &'a Block,
    shape: Option<Shape>,
    weight: u64,
) -> Result<(), NoMemory>
    ensures first { OnOk result (checker.new.first.type_error ≡ first_after checker.old.first.type_error
        (body_errors b.now shape weight (scope_of checker.old))) }
    ensures same { OnOk result (scope_of checker.new ≡ scope_of checker.old) }
{
    block(checker, b, shape)?;
    checker
        .first
        .check(is_weight(weight), Reason::TooLong, b.place);
    Ok(())
}
