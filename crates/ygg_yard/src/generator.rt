ghost use Rattle.std.specs.Prelude.{◌≡◌, ◌≤◌, ◌++◌, OnOk, IfOk};
ghost use Rattle.std.specs.Fmt.{decimal};
ghost use Rattle.std.specs.List.{flat_map};
ghost use Rattle.ygg_yard.specs.Texts.{begun_with, operation_with, made};

use std::alloc::Global;
use ygg_base::{NoMemory, Text};

/// Parts are put at the end. Its only error is out of memory.
fn push_parts(text: &mut Text, parts: &[&[u8]]) -> Result<(), NoMemory>
    ensures { OnOk result (text.new ≡ text.old ++ flat_map (λ part. part.now) parts.now) }
{
    for part in parts {
        text.extend_from_slice(part)?;
    }
    Ok(())
}

/// A file up to its operations, whose number has these digits. Its only error is out of memory.
fn begun_with(alloc: Global, digits: &[u8]) -> Result<Text, NoMemory>
    ensures { IfOk result (λ text. text ≡ begun_with digits.now) }
{
    let mut text = Text::new(alloc);
    push_parts(
        &mut text,
        &[
            b"yggdrasil 1;\ndisk sync ",
            digits,
            b" of 1 of 8;\nlayer cells {\n  state t : table ",
            digits,
            b" of 1 of 8;\n",
        ],
    )?;
    Ok(text)
}

/// A file up to its operations, of which there are so many. Its only error is out of memory.
fn begun(alloc: Global, count: u32) -> Result<Text, NoMemory>
    ensures { IfOk result (λ text. text ≡ begun_with (decimal count)) }
{
    let digits = format!(in alloc; "{count}")?;
    let text = begun_with(alloc, digits.as_bytes())?;
    Ok(text)
}

/// The operation whose number has these digits is put at the end. Its only error is out of memory.
fn push_with(text: &mut Text, digits: &[u8]) -> Result<(), NoMemory>
    ensures { OnOk result (text.new ≡ text.old ++ operation_with digits.now) }
{
    push_parts(
        text,
        &[
            b"  op put_",
            digits,
            b"(v : word 8) spec {\n    t[",
            digits,
            b":8] = row(v);\n  } impl {\n    call write(",
            digits,
            b":8, row(v));\n  }\n",
        ],
    )?;
    Ok(())
}

/// The operation of a number is put at the end. Its only error is out of memory.
fn push_operation(alloc: Global, text: &mut Text, number: u32) -> Result<(), NoMemory>
    ensures { OnOk result (text.new ≡ text.old ++ operation_with (decimal number)) }
{
    let digits = format!(in alloc; "{number}")?;
    push_with(text, digits.as_bytes())
}

/// The file with so many operations, each of which writes one row of a table; all its obligations hold. Its only error is out of memory.
pub fn make(alloc: Global, n: u32) -> Result<Text, NoMemory>
    requires some { 1 ≤ n }
    requires few { n ≤ 64 }
    ensures { IfOk result (λ text. text ≡ made n) }
{
    let mut text = begun(alloc, n)?;
    for number in 0..n {
        push_operation(alloc, &mut text, number)?;
    }
    text.extend_from_slice(b"  relate (low.view == t);\n}\n")?;
    Ok(text)
}
