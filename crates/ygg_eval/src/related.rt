//! Whether a formula holds.

ghost use Rattle.std.specs.Prelude.{◌≡◌, ◌++◌, ◌<◌, length, IfOk, OnOk, IsTrue, slice_get, Some};
ghost use Rattle.ygg_eval_expr.specs.ygg_meaning.Environments.{bind};
ghost use Rattle.ygg_eval_expr.specs.ygg_meaning.Shapes.{values_fit};
ghost use Rattle.ygg_eval.specs.ygg_meaning.Stack.{tables_of};
ghost use Rattle.ygg_eval_expr.specs.Held.{env_of};
ghost use Rattle.ygg_eval.specs.Layers.{variables_from};
ghost use Rattle.ygg_eval.specs.Formulas.{IsAsked, Answers, own_in, sees_all};

use crate::Typed;
use crate::formula::{Formula, Which, expression_of};
use std::alloc::Global;
use ygg_base::DiskKind;
use ygg_eval_expr::{Binding, CowValue, Evaluator, is_one, lend_values};
use ygg_list::NoMemory;
use ygg_syntax::lists;
use ygg_syntax::tree::{DiskText, Layer};
use ygg_value::{Value, Values};

/// Puts the tables of a disk with these values after others. Its only error is out of memory.
fn name_tables<'a, 'v>(
    bindings: &mut Vec<Binding<'a, 'v>>,
    disk: &DiskText,
    values: &'v [Value],
) -> Result<(), NoMemory>
    requires { IsTrue (values_fit (tables_of disk.now) values.now) }
    ensures { OnOk result (env_of bindings.new.items ≡ env_of bindings.old.items ++ bind (tables_of disk.now) values.now) }
{
    match disk.kind {
        DiskKind::Sync => {
            bindings.push(Binding {
                name: b"view",
                held: CowValue::Lent(&values[0]),
            })?;
            Ok(())
        }
        DiskKind::Async => {
            bindings.push(Binding {
                name: b"view",
                held: CowValue::Lent(&values[0]),
            })?;
            bindings.push(Binding {
                name: b"stable",
                held: CowValue::Lent(&values[1]),
            })?;
            Ok(())
        }
    }
}

/// Whether such expressions see the state and memory variables: those of `settled` see the machine below alone.
fn sees_all(which: Which) -> bool
    ensures { result ≡ sees_all which }
{
    match which {
        Which::Relate => true,
        Which::Always => true,
        Which::Settled => false,
        Which::Maybe => true,
    }
}

/// Puts the state and memory variables that such an expression of a layer sees, with these values, after others. Its only error is out
/// of memory.
fn name_own<'a, 'v>(
    bindings: &mut Vec<Binding<'a, 'v>>,
    layer: &'a Layer,
    which: Which,
    state: &'v [Value],
    memory: &'v [Value],
) -> Result<(), NoMemory>
    ensures { OnOk result (env_of bindings.new.items ≡ env_of bindings.old.items ++ own_in layer.now which state.now memory.now) }
{
    if sees_all(which) {
        lend_values(bindings, lists::declared::as_slice(&layer.state), state)?;
        lend_values(bindings, lists::declared::as_slice(&layer.memory), memory)?;
    }
    Ok(())
}

/// Puts the variables of the machine below a layer with these values after others. Its only error is out of memory.
fn name_low<'a, 'v>(
    bindings: &mut Vec<Binding<'a, 'v>>,
    disk: &DiskText,
    layers: &'a [Layer],
    place: usize,
    values: &'v [Value],
) -> Result<(), NoMemory>
    requires within { place < length layers.now }
    requires fits { IsTrue (values_fit (variables_from (tables_of disk.now) layers.now place) values.now) }
    ensures { OnOk result (env_of bindings.new.items ≡ env_of bindings.old.items ++ bind (variables_from (tables_of disk.now) layers.now place) values.now) }
{
    if place == 0 {
        name_tables(bindings, disk, values)?;
        return Ok(());
    }
    let below = &layers[place - 1];
    lend_values(bindings, lists::declared::as_slice(&below.state), values)?;
    Ok(())
}

/// Whether a formula holds of the values of the state variables, the memory variables and the variables of the machine below. A formula
/// of `settled` looks at the last alone, whatever the other values are. Its only error is out of memory.
pub fn holds(
    alloc: Global,
    typed: &Typed,
    formula: Formula,
    state: &Values,
    memory: &Values,
    low: &Values,
) -> Result<bool, NoMemory>
    requires { IsAsked typed.now.file formula state.now memory.now low.now }
    ensures { IfOk result (λ answer. Answers typed.now.file formula state.now memory.now low.now answer) }
{
    let file = typed.file();
    let layers = lists::layer::as_slice(&file.layers);
    let place = formula.layer as usize;
    let layer = &layers[place];
    let Some(expression) = expression_of(layer, formula) else {
        unreachable!();
    };
    let mut own = Vec::new(alloc);
    name_own(
        &mut own,
        layer,
        formula.which,
        state.as_slice(),
        memory.as_slice(),
    )?;
    let mut below = Vec::new(alloc);
    name_low(&mut below, &file.disk, layers, place, low.as_slice())?;
    let evaluator = Evaluator::new(
        alloc,
        lists::def::as_slice(&file.defs),
        own.as_slice(),
        below.as_slice(),
    );
    let value = evaluator.value(expression)?;
    Ok(is_one(value.value()))
}
