//! From a schedule to its text.

ghost use Rattle.std.specs.Prelude.{◌≡◌, ◌++◌, IfOk, OnOk};
ghost use Rattle.ygg_meaning.specs.Stack.{tables_of};
ghost use Rattle.ygg_sched.specs.Sites.{site_in, low_in};
ghost use Rattle.ygg_sched.specs.Printing.{
  variable_line,
  variable_lines,
  bits_lines,
  value_lines,
  run_lines,
  lines_of,
  text_of,
};

use crate::bits::put_bits_line;
use crate::claim::{Claim, Low};
use crate::decimal::put_stop;
use crate::naming::claim_named;
use crate::schedule::Schedule;
use crate::value_writing::put_value;
use std::alloc::Global;
use ygg_base::{Bits, DiskKind, NoMemory, Text};
use ygg_syntax::tree::{Declared, DiskText};
use ygg_type::Typed;
use ygg_value::Value;

/// Adds the line of a variable, which begins with a word and a space. Its only error is out of memory.
fn put_variable(
    alloc: Global,
    out: &mut Text,
    word: &[u8],
    name: &[u8],
    value: &Value,
) -> Result<(), NoMemory>
    ensures { OnOk result (out.new ≡ out.old ++ variable_line word.now name.now value.now) }
{
    out.extend_from_slice(word)?;
    out.extend_from_slice(name)?;
    out.push(b' ')?;
    put_value(alloc, out, value)?;
    out.push(b'\n')
}

/// Adds the lines of variables with their values, in order. Its only error is out of memory.
fn put_variables(
    alloc: Global,
    out: &mut Text,
    word: &[u8],
    declared: &[Declared],
    values: &[Value],
) -> Result<(), NoMemory>
    ensures { OnOk result (out.new ≡ out.old ++ variable_lines word.now declared.now values.now) }
{
    for (place, variable) in declared.iter().enumerate() {
        let Some(value) = values.get(place) else {
            return Ok(());
        };
        put_variable(alloc, out, word, variable.name.text.as_slice(), value)?;
    }
    Ok(())
}

/// Adds the lines of a disk's tables. Its only error is out of memory.
fn put_tables(
    alloc: Global,
    out: &mut Text,
    word: &[u8],
    disk: DiskText,
    values: &[Value],
) -> Result<(), NoMemory>
    ensures { OnOk result (out.new ≡ out.old ++ variable_lines word.now (tables_of disk) values.now) }
{
    let Some((view, others)) = values.split_first() else {
        return Ok(());
    };
    put_variable(alloc, out, word, b"view", view)?;
    match (disk.kind, others) {
        (DiskKind::Async, [stable, ..]) => put_variable(alloc, out, word, b"stable", stable),
        _ => Ok(()),
    }
}

/// Adds the lines of the variables that `low` names. Its only error is out of memory.
fn put_low(
    alloc: Global,
    out: &mut Text,
    word: &[u8],
    low: Low<'_>,
    values: &[Value],
) -> Result<(), NoMemory>
    ensures { OnOk result (out.new ≡ out.old ++ variable_lines word.now (low_in low.entry) values.now) }
{
    match low {
        Low::Disk(disk) => put_tables(alloc, out, word, disk, values),
        Low::Variables(declared) => put_variables(alloc, out, word, declared, values),
    }
}

/// Adds a line of picks, where there is one. Its only error is out of memory.
fn put_bits_if(out: &mut Text, there: bool, word: &[u8], picks: &Bits) -> Result<(), NoMemory>
    ensures { OnOk result (out.new ≡ out.old ++ bits_lines there word.now picks.now) }
{
    if there {
        put_bits_line(out, word, picks)
    } else {
        Ok(())
    }
}

/// Adds the lines of values. Its only error is out of memory.
fn put_values(
    alloc: Global,
    out: &mut Text,
    claim: Claim<'_>,
    schedule: &Schedule,
) -> Result<(), NoMemory>
    ensures { OnOk result (out.new ≡ out.old ++ value_lines (site_in claim.entry) schedule.now) }
{
    put_variables(
        alloc,
        out,
        b"state ",
        claim.state(),
        schedule.state.as_slice(),
    )?;
    put_variables(
        alloc,
        out,
        b"memory ",
        claim.memory(),
        schedule.memory.as_slice(),
    )?;
    put_low(alloc, out, b"low ", claim.low(), schedule.low.as_slice())?;
    put_variables(
        alloc,
        out,
        b"arg ",
        claim.arguments(),
        schedule.args.as_slice(),
    )
}

/// Adds the lines of runs. Its only error is out of memory.
fn put_runs(
    alloc: Global,
    out: &mut Text,
    claim: Claim<'_>,
    schedule: &Schedule,
) -> Result<(), NoMemory>
    ensures { OnOk result (out.new ≡ out.old ++ run_lines (site_in claim.entry) schedule.now) }
{
    let obligation = claim.obligation;
    put_stop(alloc, out, schedule.stop)?;
    put_bits_line(out, b"picks ", &schedule.picks)?;
    put_bits_if(out, obligation.has_wake(), b"wake ", &schedule.wake)?;
    put_bits_if(out, obligation.has_other(), b"other ", &schedule.other)
}

/// The lines of a schedule of an obligation. Its only error is out of memory.
fn text_of(alloc: Global, claim: Claim<'_>, schedule: &Schedule) -> Result<Text, NoMemory>
    ensures { IfOk result (λ text. text ≡ lines_of (site_in claim.entry) schedule.now) }
{
    let mut out = Text::from_slice(alloc, b"ygg-schedule 1\nobligation ")?;
    out.extend_from_slice(schedule.name.as_slice())?;
    out.push(b'\n')?;
    put_values(alloc, &mut out, claim, schedule)?;
    put_runs(alloc, &mut out, claim, schedule)?;
    out.extend_from_slice(b"end\n")?;
    Ok(out)
}

/// The text of a schedule of a file, which `read_schedule` reads as the same schedule. One whose name no obligation of the file has, as no
/// schedule of the file, has the empty text. Its only error is out of memory.
pub fn print_schedule(alloc: Global, schedule: &Schedule, typed: &Typed) -> Result<Text, NoMemory>
    ensures { IfOk result (λ text. text ≡ text_of typed.now.file schedule.now) }
{
    match claim_named(typed.file(), schedule.name.as_slice()) {
        Some(claim) => text_of(alloc, claim, schedule),
        None => Ok(Text::new(alloc)),
    }
}
