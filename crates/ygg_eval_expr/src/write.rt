//! Parts of values that are written anew.

ghost use Rattle.std.specs.Prelude.{◌≡◌, IsTrue, OnOk, OnErr, List, [], ◌∷◌, length, map};
ghost use Rattle.ygg_value.specs.Number.{Number};
ghost use Rattle.ygg_value.specs.Shapes.{shape_of, IsShape};
ghost use Rattle.ygg_value.specs.Values.{row_in, row_write, table_read, table_write, with_part};
ghost use Rattle.ygg_value.specs.declared.row.Value.TheVariants.{Table as AsTable};
ghost use Rattle.ygg_value.specs.declared.shape.Shape.TheVariants.{Row as RowShape};
ghost use Rattle.ygg_meaning_laws.specs.MeaningShapes.{fits};
ghost use Rattle.ygg_eval_expr.specs.Writing.{CanWrite};

use crate::made::word_in;
use std::alloc::Global;
use ygg_list::NoMemory;
use ygg_value::{
    Shape, Table, Value, Word, row_write, shape_of, table_read, table_write, zero_row,
};

/// Writes a value to the part of another that these indices name, from the outermost on; out of range nothing changes. Its only
/// error is out of memory, which a word of a table alone may meet, and then nothing has changed.
pub fn write_part(
    alloc: Global,
    whole: &mut Value,
    indices: &[Word],
    part: Value,
) -> Result<(), NoMemory>
    requires { CanWrite whole.old (length indices.now) part }
    ensures ok { OnOk result (whole.new ≡ with_part whole.old (map (λ (w : Number). w.bits) indices.now) part) }
    ensures err { OnErr result (whole.new ≡ whole.old) }
{
    if indices.is_empty() {
        *whole = part;
        return Ok(());
    }
    let at = indices[0];
    let shape = shape_of(whole);
    match whole {
        Value::Word(_) => Ok(()),
        Value::Row(row) => {
            row_write(row, at, word_in(&part));
            Ok(())
        }
        Value::Table(table) => {
            if indices.len() == 1 {
                write_row(table, at, &part);
                return Ok(());
            }
            write_word(alloc, table, shape, at, indices[1], word_in(&part))
        }
    }
}

/// Puts a row at a place of a table.
fn write_row(table: &mut Table, at: Word, part: &Value)
    requires { IsTrue (fits (RowShape table.old.words table.old.width) part.now) }
    ensures { table.new ≡ table_write table.old at.bits (row_in part.now) }
{
    match part {
        Value::Row(row) => table_write(table, at, row),
        _ => unreachable!(),
    }
}

/// Puts a word at a place of a row of a table of this shape. Its only error is out of memory.
fn write_word(
    alloc: Global,
    table: &mut Table,
    shape: Shape,
    at: Word,
    within: Word,
    word: Word,
) -> Result<(), NoMemory>
    requires shape { IsShape shape }
    requires same { shape_of (AsTable table.old) ≡ shape }
    requires width { word.width ≡ table.old.width }
    ensures ok { OnOk result (table.new ≡ table_write table.old at.bits (row_write (table_read table.old at.bits) within.bits word)) }
    ensures err { OnErr result (table.new ≡ table.old) }
{
    match shape {
        Shape::Table { words, width, .. } => {
            let mut row = zero_row(alloc, words, width)?;
            table_read(table, at, &mut row);
            row_write(&mut row, within, word);
            table_write(table, at, &row);
            Ok(())
        }
        _ => unreachable!(),
    }
}
