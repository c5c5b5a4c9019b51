//! The names that a block sees, with their values.

ghost use Rattle.std.specs.Prelude.{◌≡◌, ◌<◌, ◌++◌, OnOk, IfOk, IfSome, length, map};
ghost use Rattle.ygg_value.specs.Number.{Number};
ghost use Rattle.ygg_value.specs.Values.{with_part};
ghost use Rattle.ygg_eval_expr.specs.ygg_meaning.Environments.{assign, bind, look_up};
ghost use Rattle.ygg_eval_expr.specs.Held.{env_of, held_value};
ghost use Rattle.ygg_eval_expr.specs.Writing.{CanWrite};
ghost use Rattle.ygg_eval.specs.Naming.{first_place};

use std::alloc::Global;
use std::mem;
use ygg_eval_expr::{Binding, CowValue, write_part};
use ygg_list::NoMemory;
use ygg_syntax::tree::Declared;
use ygg_value::{Value, Word};

/// Puts declared names with these values after others, in order, and moves the values. Its only error is out of memory.
pub fn name_values<'a, 'v>(
    names: &mut Vec<Binding<'a, 'v>>,
    declared: &'a [Declared],
    values: Vec<Value>,
) -> Result<(), NoMemory>
    ensures { OnOk result (env_of names.new.items ≡ env_of names.old.items ++ bind declared.now values.items) }
{
    let mut rest = values.into_iter();
    for variable in declared {
        let Some(value) = rest.next() else {
            return Ok(());
        };
        names.push(Binding {
            name: variable.name.text.as_slice(),
            held: CowValue::Made(value),
        })?;
    }
    Ok(())
}

/// Gives the first of a name a new value, or the part of its value that these indices name. After running out of memory, which is the only
/// error, nothing is said of the names.
pub fn write_name<'a, 'v>(
    alloc: Global,
    names: &mut [Binding<'a, 'v>],
    name: &[u8],
    indices: &[Word],
    value: Value,
) -> Result<(), NoMemory>
    requires { CanWrite (look_up name.now (env_of names.old)) (length indices.now) value }
    ensures { OnOk result (env_of names.new ≡ assign (env_of names.old) name.now
        (with_part (look_up name.now (env_of names.old)) (map (λ (w : Number). w.bits) indices.now) value)) }
{
    match place_in(names, name) {
        Some(place) => rewrite(alloc, &mut names[place], indices, value),
        None => Ok(()),
    }
}

/// The place of the first of a name.
fn place_in(names: &[Binding<'_, '_>], name: &[u8]) -> Option<usize>
    ensures within { IfSome result (λ place. place < length names.now) }
    ensures first { result ≡ first_place 0 (env_of names.now) name.now }
{
    for (place, binding) in names.iter().enumerate() {
        if binding.name == name {
            return Some(place);
        }
    }
    None
}

/// Gives a name a new value, or the part of its value that these indices name. After running out of memory, which is the only error, nothing
/// is said of its value.
fn rewrite(
    alloc: Global,
    binding: &mut Binding<'_, '_>,
    indices: &[Word],
    value: Value,
) -> Result<(), NoMemory>
    requires { CanWrite (held_value binding.old.held) (length indices.now) value }
    ensures name { OnOk result (binding.new.name.now ≡ binding.old.name.now) }
    ensures value { OnOk result (held_value binding.new.held ≡ with_part (held_value binding.old.held) (map (λ (w : Number). w.bits) indices.now) value) }
{
    let empty = CowValue::Made(Value::Word(Word { width: 1, bits: 0 }));
    let held = mem::replace(&mut binding.held, empty);
    let mut whole = held.into_value(alloc)?;
    write_part(alloc, &mut whole, indices, value)?;
    binding.held = CowValue::Made(whole);
    Ok(())
}
