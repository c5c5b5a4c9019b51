//! Lines of names and values.

ghost use Rattle.std.specs.Prelude.{◌≡◌, ◌++◌, OnOk};
ghost use Rattle.std.specs.Fmt.{decimal};
ghost use Rattle.ygg_eval_expr.specs.Held.{env_of};
ghost use Rattle.ygg_sched.specs.Printing.{variable_line};
ghost use Rattle.ygg_explain.specs.Lines.{both_text, env_lines, place_text};

use std::alloc::Global;
use ygg_base::{NoMemory, Text};
use ygg_eval::Binding;
use ygg_sched::put_value;
use ygg_syntax::tree::Place;
use ygg_value::Value;

/// Adds the line of a variable, which begins with a word and a space. Its only error is out of memory.
fn put_line(
    alloc: Global,
    out: &mut Text,
    word: &[u8],
    name: &[u8],
    value: &Value,
) -> Result<(), NoMemory>
    ensures { OnOk result (out.new ≡ out.old ++ variable_line word.now name.now value.now) }
{
    out.extend_from_slice(word)?;
    out.extend_from_slice(name)?;
    out.push(b' ')?;
    put_value(alloc, out, value)?;
    out.push(b'\n')
}

/// Adds the line of each variable, in order. Its only error is out of memory.
pub fn put_lines(
    alloc: Global,
    out: &mut Text,
    word: &[u8],
    variables: &[Binding<'_, '_>],
) -> Result<(), NoMemory>
    ensures { OnOk result (out.new ≡ out.old ++ env_lines word.now (env_of variables.now)) }
{
    for variable in variables {
        put_line(alloc, out, word, variable.name, variable.held.value())?;
    }
    Ok(())
}

/// Adds a number in decimal digits. Its only error is out of memory.
pub fn put_decimal(alloc: Global, out: &mut Text, number: u64) -> Result<(), NoMemory>
    ensures { OnOk result (out.new ≡ out.old ++ decimal number) }
{
    let digits = format!(in alloc; "{number}")?;
    out.extend_from_slice(digits.as_bytes())
}

/// Adds a place as `LINE:COLUMN`. Its only error is out of memory.
pub fn put_place(alloc: Global, out: &mut Text, place: Place) -> Result<(), NoMemory>
    ensures { OnOk result (out.new ≡ out.old ++ place_text place) }
{
    put_decimal(alloc, out, u64::from(place.line))?;
    out.push(b':')?;
    put_decimal(alloc, out, u64::from(place.column))
}

/// Adds two values after a space each. Its only error is out of memory.
pub fn put_both(alloc: Global, out: &mut Text, a: &Value, b: &Value) -> Result<(), NoMemory>
    ensures { OnOk result (out.new ≡ out.old ++ both_text a.now b.now) }
{
    out.push(b' ')?;
    put_value(alloc, out, a)?;
    out.push(b' ')?;
    put_value(alloc, out, b)
}
