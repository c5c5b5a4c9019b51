//! Values, written.

ghost use Rattle.std.specs.Prelude.{◌≡◌, ◌++◌, length, OnOk};
ghost use Rattle.ygg_value.specs.Shapes.{IsShape};
ghost use Rattle.ygg_value.specs.declared.shape.Shape.TheVariants as shape;
ghost use Rattle.ygg_sched.specs.Values.{separator, row_text, value_text};

use crate::number::put_word;
use crate::value_reading::place;
use std::alloc::Global;
use ygg_base::{NoMemory, Text};
use ygg_value::{Row, Shape, Table, Value, row_read, shape_of, table_read, zero_row};

/// Adds what stands before the piece at a place: the mark before each but the first. Its only error is out of memory.
fn put_separator(out: &mut Text, mark: u8, place: u16) -> Result<(), NoMemory>
    ensures { OnOk result (out.new ≡ out.old ++ separator mark place) }
{
    if place == 0 { Ok(()) } else { out.push(mark) }
}

/// Adds the words of a row, of which there are so many, with `,` between them. Its only error is out of memory.
fn put_row(out: &mut Text, row: &Row, words: u8) -> Result<(), NoMemory>
    requires { words ≡ length row.now.words }
    ensures { OnOk result (out.new ≡ out.old ++ row_text row.now.width row.now.words) }
{
    for at in 0..words {
        put_separator(out, b',', u16::from(at))?;
        put_word(out, row_read(row, place(u16::from(at))))?;
    }
    Ok(())
}

/// Adds the rows of a table, of which there are so many of so many words, with `;` between them. Its only error is out of memory.
fn put_table(
    alloc: Global,
    out: &mut Text,
    table: &Table,
    rows: u16,
    words: u8,
    width: u8,
) -> Result<(), NoMemory>
    requires limits { IsShape (shape.Table rows words width) }
    requires rows { rows ≡ length table.now.rows }
    requires words { words ≡ table.now.words }
    requires width { width ≡ table.now.width }
    ensures { OnOk result (out.new ≡ out.old ++ value_text (Value.Table table.now)) }
{
    let mut row = zero_row(alloc, words, width)?;
    for at in 0..rows {
        put_separator(out, b';', at)?;
        table_read(table, place(at), &mut row);
        put_row(out, &row, words)?;
    }
    Ok(())
}

/// Adds a value. Its only error is out of memory.
pub fn put_value(alloc: Global, out: &mut Text, value: &Value) -> Result<(), NoMemory>
    ensures { OnOk result (out.new ≡ out.old ++ value_text value.now) }
{
    match (value, shape_of(value)) {
        (Value::Word(word), _) => put_word(out, *word),
        (Value::Row(row), Shape::Row { words, .. }) => put_row(out, row, words),
        (Value::Table(table), Shape::Table { rows, words, width }) => {
            put_table(alloc, out, table, rows, words, width)
        }
        _ => unreachable!(),
    }
}
