//! Values that are made or lent, and what names stand for.

ghost use Rattle.std.specs.Prelude.{◌≡◌, ◌++◌, IfOk, OnOk};
ghost use Rattle.std.specs.Option.{option_copied};
ghost use Rattle.ygg_meaning_laws.specs.ygg_type_rules.Names.{look_up as found};
ghost use Rattle.ygg_meaning_laws.specs.Environments.{bind, look_up};
ghost use Rattle.ygg_eval_expr.specs.Held.{env_of, held_value};

use std::alloc::Global;
use ygg_list::NoMemory;
use ygg_syntax::tree::Declared;
use ygg_value::{Value, Word, copy_value};

/// A name and what it stands for.
#[derive(Drop)]
pub struct Binding<'a, 'v> {
    pub name: &'a [u8],
    pub held: CowValue<'v>,
}

/// A value that was made, or one that is lent.
#[derive(Drop)]
pub enum CowValue<'v> {
    Made(Value),
    Lent(&'v Value),
}

impl<'v> CowValue<'v> {
    /// The value.
    pub fn value(&self) -> &Value
        ensures { result.now ≡ held_value self.now }
    {
        match self {
            CowValue::Made(value) => value,
            CowValue::Lent(value) => *value,
        }
    }

    /// The value, of which a copy is made where it is lent. Its only error is out of memory.
    pub fn into_value(self, alloc: Global) -> Result<Value, NoMemory>
        ensures { IfOk result (λ value. value ≡ held_value self.entry) }
    {
        match self {
            CowValue::Made(value) => Ok(value),
            CowValue::Lent(value) => copy_value(alloc, value),
        }
    }
}

/// The value of the first of a name.
fn find<'n>(bindings: &'n [Binding<'_, '_>], name: &[u8]) -> Option<&'n Value>
    ensures { option_copied result ≡ found name.now (env_of bindings.now) }
{
    for binding in bindings {
        if binding.name == name {
            return Some(binding.held.value());
        }
    }
    None
}

/// The value of the first of a name among some bindings and then among others, lent; a single digit 0 where there is none.
pub fn value_of<'n>(
    bindings: &'n [Binding<'_, '_>],
    others: &'n [Binding<'_, '_>],
    name: &[u8],
) -> CowValue<'n>
    ensures { held_value result ≡ look_up name.now (env_of bindings.now ++ env_of others.now) }
{
    if let Some(value) = find(bindings, name) {
        return CowValue::Lent(value);
    }
    if let Some(value) = find(others, name) {
        return CowValue::Lent(value);
    }
    CowValue::Made(Value::Word(Word { width: 1, bits: 0 }))
}

/// Puts declared names with these values, which are lent, after others, in order. Its only error is out of memory.
pub fn lend_values<'a, 'v>(
    bindings: &mut Vec<Binding<'a, 'v>>,
    declared: &'a [Declared],
    values: &'v [Value],
) -> Result<(), NoMemory>
    ensures { OnOk result (env_of bindings.new.items ≡ env_of bindings.old.items ++ bind declared.now values.now) }
{
    for (i, variable) in declared.iter().enumerate() {
        if i >= values.len() {
            return Ok(());
        }
        bindings.push(Binding {
            name: variable.name.text.as_slice(),
            held: CowValue::Lent(&values[i]),
        })?;
    }
    Ok(())
}
