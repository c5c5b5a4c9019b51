//! Names with values of terms.

ghost use Rattle.std.specs.Prelude.{◌≡◌, ◌++◌, IfOk, List};
ghost use Rattle.std.specs.Option.{option_copied};
ghost use Rattle.ygg_eval_expr.specs.ygg_type_rules.Names.{look_up as found};
ghost use Rattle.ygg_sym_runs.specs.Names.{sym_bind, sym_look_up};
ghost use Rattle.ygg_sym_runs.specs.Seen.{env_of};

use std::alloc::Global;
use ygg_list::Duplicate;
use ygg_shape::{Id, NoMemory, SymValue};
use ygg_syntax::tree::Declared;

/// A name and the value of terms that it stands for.
#[derive(Drop)]
pub struct SymBinding<'a> {
    /// The name.
    pub name: &'a [u8],
    /// What it stands for.
    pub value: SymValue,
}

/// The value of the first of a name.
fn find<'n>(bindings: &'n [SymBinding<'_>], name: &[u8]) -> Option<&'n SymValue>
    ensures { option_copied result ≡ found name.now (env_of bindings.now) }
{
    for binding in bindings {
        if binding.name == name {
            return Some(&binding.value);
        }
    }
    None
}

/// A copy of the value of the first of a name among some bindings and then among others; the first term where there is none. Its only
/// error is out of memory.
pub fn value_of(
    alloc: Global,
    bindings: &[SymBinding<'_>],
    others: &[SymBinding<'_>],
    name: &[u8],
) -> Result<SymValue, NoMemory>
    ensures { IfOk result (λ x. x ≡ sym_look_up name.now (env_of bindings.now ++ env_of others.now)) }
{
    if let Some(value) = find(bindings, name) {
        return value.duplicate(alloc);
    }
    if let Some(value) = find(others, name) {
        return value.duplicate(alloc);
    }
    Ok(SymValue::Word(Id(0)))
}

/// The same bindings again. Its only error is out of memory.
pub fn copied<'a>(
    alloc: Global,
    bindings: &[SymBinding<'a>],
) -> Result<Vec<SymBinding<'a>>, NoMemory>
    ensures { IfOk result (λ copy. env_of copy.items ≡ env_of bindings.now) }
{
    let mut copy = Vec::new(alloc);
    for binding in bindings {
        copy.push(SymBinding {
            name: binding.name,
            value: binding.value.duplicate(alloc)?,
        })?;
    }
    Ok(copy)
}

/// Parameters with the values of arguments, in order. Its only error is out of memory.
pub fn bound<'a>(
    alloc: Global,
    parameters: &'a [Declared],
    args: &[SymValue],
) -> Result<Vec<SymBinding<'a>>, NoMemory>
    ensures { IfOk result (λ bindings. env_of bindings.items ≡ sym_bind parameters.now args.now) }
{
    let mut bindings = Vec::new(alloc);
    for (i, parameter) in parameters.iter().enumerate() {
        if i >= args.len() {
            return Ok(bindings);
        }
        bindings.push(SymBinding {
            name: parameter.name.text.as_slice(),
            value: args[i].duplicate(alloc)?,
        })?;
    }
    Ok(bindings)
}
