//! What names stand for: the variables of a layer, and those of what it is specified over.

ghost use Rattle.std.specs.Prelude.{◌≡◌, ◌++◌, ◌<◌, length, IfOk};
ghost use Rattle.ygg_eval.specs.ygg_meaning.Environments.{bind};
ghost use Rattle.ygg_eval.specs.ygg_meaning.Stack.{tables_of};
ghost use Rattle.ygg_eval.specs.Layers.{variables_at};
ghost use Rattle.ygg_eval_expr.specs.Held.{env_of};

use std::alloc::Global;
use ygg_base::DiskKind;
use ygg_eval::{Binding, Typed};
use ygg_eval_expr::{CowValue, lend_values};
use ygg_list::NoMemory;
use ygg_syntax::lists;
use ygg_syntax::tree::{Declared, DiskText, Layer};
use ygg_value::Value;

/// Declared names with these values. Its only error is out of memory.
pub fn named<'a, 'v>(
    alloc: Global,
    declared: &'a [Declared],
    values: &'v [Value],
) -> Result<Vec<Binding<'a, 'v>>, NoMemory>
    ensures { IfOk result (λ env. env_of env.items ≡ bind declared.now values.now) }
{
    let mut bindings = Vec::new(alloc);
    lend_values(&mut bindings, declared, values)?;
    Ok(bindings)
}

/// The tables of a disk with these values. Its only error is out of memory.
pub fn tables<'a, 'v>(
    alloc: Global,
    disk: DiskText,
    values: &'v [Value],
) -> Result<Vec<Binding<'a, 'v>>, NoMemory>
    ensures { IfOk result (λ env. env_of env.items ≡ bind (tables_of disk) values.now) }
{
    let mut bindings = Vec::new(alloc);
    let Some((view, others)) = values.split_first() else {
        return Ok(bindings);
    };
    bindings.push(Binding {
        name: b"view",
        held: CowValue::Lent(view),
    })?;
    match (disk.kind, others) {
        (DiskKind::Async, [stable, ..]) => {
            bindings.push(Binding {
                name: b"stable",
                held: CowValue::Lent(stable),
            })?;
            Ok(bindings)
        }
        _ => Ok(bindings),
    }
}

/// The variables of what the layer at a place is specified over, with these values. Its only error is out of memory.
pub fn below<'a, 'v>(
    alloc: Global,
    typed: &'a Typed,
    place: u32,
    values: &'v [Value],
) -> Result<Vec<Binding<'a, 'v>>, NoMemory>
    requires within { place < length typed.now.file.layers }
    ensures { IfOk result (λ env. env_of env.items ≡ bind (variables_at typed.now.file place) values.now) }
{
    let file = typed.file();
    if place == 0 {
        let env = tables(alloc, file.disk, values)?;
        return Ok(env);
    }
    let layer = &lists::layer::as_slice(&file.layers)[place as usize - 1];
    let env = named(alloc, lists::declared::as_slice(&layer.state), values)?;
    Ok(env)
}

/// The variables of a layer's specification, and then those of its memory, with these values. Its only error is out of memory.
pub fn own<'a, 'v>(
    alloc: Global,
    layer: &'a Layer,
    state: &'v [Value],
    memory: &'v [Value],
) -> Result<Vec<Binding<'a, 'v>>, NoMemory>
    ensures { IfOk result (λ env. env_of env.items ≡ bind layer.now.state state.now ++ bind layer.now.memory memory.now) }
{
    let mut bindings = Vec::new(alloc);
    lend_values(
        &mut bindings,
        lists::declared::as_slice(&layer.state),
        state,
    )?;
    lend_values(
        &mut bindings,
        lists::declared::as_slice(&layer.memory),
        memory,
    )?;
    Ok(bindings)
}
