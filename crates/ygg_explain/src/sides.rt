//! The two sides of a comparison.

ghost use Rattle.std.specs.Prelude.{◌≡◌, ◌<◌, IfOk, OnOk, length};
ghost use Rattle.ygg_value.specs.Shapes.{IsShape};
ghost use Rattle.ygg_value.specs.declared.row.Value.TheVariants.{Table as AsTable};
ghost use Rattle.ygg_value.specs.Values.{part_of};
ghost use Rattle.ygg_value.specs.declared.shape.Shape.TheVariants as shape;
ghost use Rattle.ygg_explain.specs.Parts.{Adds, AreSides};

use crate::lines::{put_both, put_decimal};
use std::alloc::Global;
use ygg_base::{NoMemory, Text};
use ygg_value::{Shape, Table, Value, Word, same, shape_of, table_read, zero_row};

/// A place of a table.
fn place(at: u16) -> Word
    ensures { result.bits ≡ at }
{
    Word {
        width: 16,
        bits: u64::from(at),
    }
}

/// The row of a table at a place. Its only error is out of memory.
fn row_at(
    alloc: Global,
    table: &Table,
    rows: u16,
    words: u8,
    width: u8,
    at: u16,
) -> Result<Value, NoMemory>
    requires limits { IsShape (shape.Table rows words width) }
    requires words { words ≡ table.now.words }
    requires width { width ≡ table.now.width }
    ensures { IfOk result (λ row. row ≡ part_of (AsTable table.now) at) }
{
    let mut row = zero_row(alloc, words, width)?;
    table_read(table, place(at), &mut row);
    Ok(Value::Row(row))
}

/// Adds the first row in which two tables differ, of which the first has so many rows. Its only error is out of memory.
fn put_row(
    alloc: Global,
    out: &mut Text,
    a: &Table,
    b: &Table,
    rows: u16,
    words: u8,
    width: u8,
    others: u16,
    other_words: u8,
    other_width: u8,
) -> Result<(), NoMemory>
    requires limits { IsShape (shape.Table rows words width) }
    requires other_limits { IsShape (shape.Table others other_words other_width) }
    requires rows { rows ≡ length a.now.rows }
    requires words { words ≡ a.now.words }
    requires width { width ≡ a.now.width }
    requires same_words { other_words ≡ b.now.words }
    requires same_width { other_width ≡ b.now.width }
    ensures { OnOk result (Adds (AreSides (AsTable a.now) (AsTable b.now)) out.old out.new) }
{
    for at in 0..rows {
        let left = row_at(alloc, a, rows, words, width, at)?;
        let right = row_at(alloc, b, others, other_words, other_width, at)?;
        if !same(&left, &right) {
            out.extend_from_slice(b" row ")?;
            put_decimal(alloc, out, u64::from(at))?;
            return put_both(alloc, out, &left, &right);
        }
    }
    Ok(())
}

/// Adds what is told of the two sides of a comparison: of two tables the first row of the first in which they differ, and its values; of other values
/// both. Its only error is out of memory.
pub fn put_sides(alloc: Global, out: &mut Text, a: &Value, b: &Value) -> Result<(), NoMemory>
    ensures { OnOk result (Adds (AreSides a.now b.now) out.old out.new) }
{
    match (a, b, shape_of(a), shape_of(b)) {
        (
            Value::Table(left),
            Value::Table(right),
            Shape::Table { rows, words, width },
            Shape::Table {
                rows: others,
                words: other_words,
                width: other_width,
            },
        ) => put_row(
            alloc,
            out,
            left,
            right,
            rows,
            words,
            width,
            others,
            other_words,
            other_width,
        ),
        (Value::Word(_), _, _, _) => put_both(alloc, out, a, b),
        (Value::Row(_), _, _, _) => put_both(alloc, out, a, b),
        (Value::Table(_), Value::Word(_), _, _) => put_both(alloc, out, a, b),
        (Value::Table(_), Value::Row(_), _, _) => put_both(alloc, out, a, b),
        _ => unreachable!(),
    }
}
