//! Typing of files.

ghost use Rattle.std.specs.Prelude.{◌≡◌, [], OnOk, IfOk, None};
ghost use Rattle.ygg_type.specs.ygg_syntax.Weights.{weights_of};
ghost use Rattle.ygg_type.specs.ygg_type_rules.Names.{added};
ghost use Rattle.ygg_type.specs.ygg_type_rules.TypeErrors.{first_after, both};
ghost use Rattle.ygg_type.specs.ygg_type_rules.Definitions.{with_definitions, definitions_errors, definition_scope};
ghost use Rattle.ygg_type.specs.ygg_type_rules.Layers.{below_of};
ghost use Rattle.ygg_type.specs.ygg_type_rules.Files.{
  disk_errors,
  disk_operations as operations_of_disk,
  disk_variables as variables_of_disk,
  layer_errors,
  count_error,
  layers_errors,
  disk_below,
  type_errors_of,
};
ghost use Rattle.ygg_type.specs.Checking.{scope_of};
ghost use Rattle.ygg_type.specs.Ready.{IsReady, below_in};

use crate::checker::Typer;
use crate::definitions::definitions;
use crate::first::First;
use crate::layers::parts;
use crate::shapes;
use std::alloc::Global;
use std::mem;
use ygg_base::{DiskKind, Reason};
use ygg_list::{NoMemory, Sequence};
use ygg_syntax::tree::{DiskText, File, Layer, TypeText};
use ygg_syntax::{Weights, lists};
use ygg_type_rules::{Names, Owner, Signature, TypeError, Variable, Visibility};
use ygg_value::Shape;

/// Adds an operation of a disk to these.
fn add_disk_operation<'a>(
    alloc: Global,
    known: &mut Names<'a, Signature>,
    name: &'a [u8],
    arguments: &[Option<Shape>],
    answers: bool,
    answer: Option<Shape>,
) -> Result<(), NoMemory>
    ensures { OnOk result (known.new ≡ added name.now (record { arguments = arguments.now; answers = answers; answer = answer }) known.old) }
{
    let arguments = Sequence::from_slice(alloc, arguments)?;
    known.add(
        name,
        Signature {
            arguments,
            answers,
            answer,
        },
    )
}

/// The operations of a disk, `read`, `write` and `flush`, in place of those that are known.
fn disk_operations<'a>(
    alloc: Global,
    known: &mut Names<'a, Signature>,
    disk: DiskText,
) -> Result<(), NoMemory>
    ensures { OnOk result (known.new ≡ operations_of_disk disk) }
{
    let address = Some(Shape::Word { width: 8 });
    let row = shapes::row(disk.words.value, disk.width.value);
    known.truncate(0);
    add_disk_operation(alloc, known, b"read", &[address], true, row)?;
    add_disk_operation(alloc, known, b"write", &[address, row], false, None)?;
    add_disk_operation(alloc, known, b"flush", &[], false, None)
}

/// The variables of a disk, `view`, and `stable` of an asynchronous one, in place of those that are known.
fn disk_variables<'a>(known: &mut Names<'a, Variable>, disk: DiskText) -> Result<(), NoMemory>
    ensures { OnOk result (known.new ≡ variables_of_disk disk) }
{
    let table = Variable {
        kind: Owner::State,
        shape: shapes::table(disk.rows.value, disk.words.value, disk.width.value),
    };
    known.truncate(0);
    known.add(b"view", table)?;
    match disk.kind {
        DiskKind::Sync => Ok(()),
        DiskKind::Async => known.add(b"stable", table),
    }
}

/// Makes these operations and the layer's variables those of the machine below. The next layer has no variables yet.
fn set_below<'a>(checker: &mut Typer<'a>, operations: &mut Names<'a, Signature>)
    ensures scope { scope_of checker.new
        ≡ record (scope_of checker.old) { lower = operations.old; low = checker.old.variables; variables = [] } }
    ensures first { checker.new.first ≡ checker.old.first }
{
    mem::swap(&mut checker.lower, operations);
    mem::swap(&mut checker.low, &mut checker.variables);
    checker.variables.truncate(0);
}

/// A layer after so many layers of these names. It becomes the machine below.
fn layer<'a>(
    checker: &mut Typer<'a>,
    weights: &Weights,
    names: &mut Names<'a, ()>,
    before: usize,
    layer: &'a Layer,
) -> Result<(), NoMemory>
    requires { IsReady (scope_of checker.old) }
    ensures first { OnOk result (checker.new.first.type_error ≡ first_after checker.old.first.type_error
        (both (count_error before layer.now) (layer_errors layer.now names.old checker.old.defs (below_in (scope_of checker.old)) (weights_of weights.now)))) }
    ensures names { OnOk result (names.new ≡ added layer.now.name.text tt names.old) }
    ensures ready { OnOk result (IsReady (scope_of checker.new)) }
    ensures below { OnOk result (below_in (scope_of checker.new) ≡ below_of layer.now) }
    ensures defs { OnOk result (checker.new.defs ≡ checker.old.defs) }
{
    let name = layer.name.text.as_slice();
    let taken = names.has(name);
    checker.first.check(before != 8, Reason::Limit, layer.place);
    checker.first.check(!taken, Reason::Twice, layer.name.place);
    names.add(name, ())?;
    let mut operations = Names::new(checker.alloc);
    parts(checker, weights, &mut operations, layer)?;
    set_below(checker, &mut operations);
    Ok(())
}

/// The layers of a file, on the machine below the first one, where these names are taken already.
fn layers_named<'a>(
    checker: &mut Typer<'a>,
    weights: &Weights,
    names: &mut Names<'a, ()>,
    all: &'a [Layer],
) -> Result<(), NoMemory>
    requires { IsReady (scope_of checker.old) }
    ensures { OnOk result (checker.new.first.type_error ≡ first_after checker.old.first.type_error
        (layers_errors all.now 0 names.old checker.old.defs (below_in (scope_of checker.old)) (weights_of weights.now))) }
{
    for (before, one) in all.iter().enumerate() {
        layer(checker, weights, names, before, one)?;
    }
    Ok(())
}

/// The layers of a file, on the machine below the first one.
fn layers<'a>(checker: &mut Typer<'a>, weights: &Weights, all: &'a [Layer]) -> Result<(), NoMemory>
    requires { IsReady (scope_of checker.old) }
    ensures { OnOk result (checker.new.first.type_error ≡ first_after checker.old.first.type_error
        (layers_errors all.now 0 [] checker.old.defs (below_in (scope_of checker.old)) (weights_of weights.now))) }
{
    let mut names = Names::new(checker.alloc);
    layers_named(checker, weights, &mut names, all)
}

/// A checker with nothing in scope.
fn empty<'a>(alloc: Global) -> Typer<'a>
    ensures scope { scope_of result ≡ definition_scope [] }
    ensures first { result.first.type_error ≡ None }
{
    Typer {
        alloc,
        defs: Names::new(alloc),
        lower: Names::new(alloc),
        low: Names::new(alloc),
        variables: Names::new(alloc),
        view: Visibility::Definition,
        locals: Names::new(alloc),
        first: First { type_error: None },
    }
}

/// The disk of a file, and its definitions: after them the disk is the machine below.
fn beginning<'a>(
    checker: &mut Typer<'a>,
    weights: &mut Weights<'a>,
    file: &'a File,
) -> Result<(), NoMemory>
    requires scope { scope_of checker.old ≡ definition_scope [] }
    requires weights { weights.old ≡ [] }
    ensures first { OnOk result (checker.new.first.type_error ≡ first_after checker.old.first.type_error
        (both (disk_errors file.now.disk) (definitions_errors file.now.defs [] []))) }
    ensures ready { OnOk result (IsReady (scope_of checker.new)) }
    ensures defs { OnOk result (checker.new.defs ≡ with_definitions file.now.defs []) }
    ensures below { OnOk result (below_in (scope_of checker.new) ≡ disk_below file.now.disk) }
    ensures weights { OnOk result (weights.new ≡ file.now.defs) }
{
    let disk = file.disk;
    checker
        .first
        .type_text(TypeText::Table(disk.rows, disk.words, disk.width));
    definitions(checker, weights, lists::def::as_slice(&file.defs))?;
    disk_operations(checker.alloc, &mut checker.lower, disk)?;
    checker.view = Visibility::Settled;
    disk_variables(&mut checker.low, disk)
}

/// The first type error of a file, found by a checker and weights that know nothing yet.
fn found<'a>(
    checker: &mut Typer<'a>,
    weights: &mut Weights<'a>,
    file: &'a File,
) -> Result<Option<TypeError>, NoMemory>
    requires scope { scope_of checker.old ≡ definition_scope [] }
    requires weights { weights.old ≡ [] }
    requires first { checker.old.first.type_error ≡ None }
    ensures { IfOk result (λ found. found ≡ first_after None (type_errors_of file.now)) }
{
    beginning(checker, weights, file)?;
    layers(checker, weights, lists::layer::as_slice(&file.layers))?;
    Ok(checker.first.type_error)
}

/// The first type error of a file, if there is one. Its only error is out of memory.
pub fn first_type_error(alloc: Global, file: &File) -> Result<Option<TypeError>, NoMemory>
    ensures { IfOk result (λ found. found ≡ first_after None (type_errors_of file.now)) }
{
    let mut checker = empty(alloc);
    let mut weights = Weights::new(alloc);
    found(&mut checker, &mut weights, file)
}
