//! Values as they are written, read.

ghost use Rattle.std.specs.Prelude.{◌≡◌, ◌≤◌, ◌<◌, length, IfOk, IfSome};
ghost use Rattle.std.specs.Option.{option_map};
ghost use Rattle.ygg_value.specs.Shapes.{IsShape};
ghost use Rattle.ygg_value.specs.declared.shape.Shape.TheVariants as shape;
ghost use Rattle.ygg_sched.specs.Values.{row_in, rows_in, shaped_in, value_in};

use crate::number::word_in;
use crate::words::cut;
use std::alloc::Global;
use ygg_base::NoMemory;
use ygg_syntax::tree::TypeText;
use ygg_type::named;
use ygg_value::{Row, Shape, Table, Value, Word, row_write, table_write, zero_row, zero_table};

/// A place, as a word.
pub fn place(number: u16) -> Word
    ensures width { result.width ≡ 64 }
    ensures bits { result.bits ≡ number }
{
    Word {
        width: 64,
        bits: u64::from(number),
    }
}

/// The row of so many words that these bytes are, with `,` between the words. Its only error is out of memory.
fn row_of(alloc: Global, bytes: &[u8], words: u8, width: u8) -> Result<Option<Row>, NoMemory>
    requires { IsShape (shape.Row words width) }
    ensures numbers { IfOk result (λ found. option_map (λ r. r.words) found ≡ row_in width words bytes.now) }
    ensures width { IfOk result (λ found. IfSome found (λ r. r.width ≡ width)) }
    ensures words { IfOk result (λ found. IfSome found (λ r. length r.words ≡ words)) }
{
    let mut row = zero_row(alloc, words, width)?;
    let mut left = Some(bytes);
    for at in 0..words {
        let Some(more) = left else {
            return Ok(None);
        };
        let (part, others) = cut(more, b',');
        let word = match word_in(part, width) {
            Some(word) => word,
            None => return Ok(None),
        };
        row_write(&mut row, place(u16::from(at)), word);
        left = others;
    }
    if left.is_some() {
        return Ok(None);
    }
    Ok(Some(row))
}

/// The table of so many rows that these bytes are, with `;` between the rows. Its only error is out of memory.
fn table_of(
    alloc: Global,
    bytes: &[u8],
    rows: u16,
    words: u8,
    width: u8,
) -> Result<Option<Table>, NoMemory>
    requires { IsShape (shape.Table rows words width) }
    ensures rows { IfOk result (λ found. option_map (λ t. t.rows) found ≡ rows_in width words rows bytes.now) }
    ensures width { IfOk result (λ found. IfSome found (λ t. t.width ≡ width)) }
    ensures words { IfOk result (λ found. IfSome found (λ t. t.words ≡ words)) }
{
    let mut table = zero_table(alloc, rows, words, width)?;
    let mut left = Some(bytes);
    for at in 0..rows {
        let Some(more) = left else {
            return Ok(None);
        };
        let (part, others) = cut(more, b';');
        let found = row_of(alloc, part, words, width)?;
        let row = match found {
            Some(row) => row,
            None => return Ok(None),
        };
        table_write(&mut table, place(at), &row);
        left = others;
    }
    if left.is_some() {
        return Ok(None);
    }
    Ok(Some(table))
}

/// The value of a shape that these bytes are. Its only error is out of memory.
fn shaped_in(alloc: Global, shape: Shape, bytes: &[u8]) -> Result<Option<Value>, NoMemory>
    requires { IsShape shape }
    ensures { IfOk result (λ found. found ≡ shaped_in shape bytes.now) }
{
    match shape {
        Shape::Word { width } => match word_in(bytes, width) {
            Some(word) => Ok(Some(Value::Word(word))),
            None => Ok(None),
        },
        Shape::Row { words, width } => match row_of(alloc, bytes, words, width)? {
            Some(row) => Ok(Some(Value::Row(row))),
            None => Ok(None),
        },
        Shape::Table { rows, words, width } => match table_of(alloc, bytes, rows, words, width)? {
            Some(table) => Ok(Some(Value::Table(table))),
            None => Ok(None),
        },
    }
}

/// The value of a type that these bytes are. Its only error is out of memory.
pub fn value_in(alloc: Global, text: TypeText, bytes: &[u8]) -> Result<Option<Value>, NoMemory>
    ensures { IfOk result (λ found. found ≡ value_in text bytes.now) }
{
    match named(text) {
        Some(shape) => shaped_in(alloc, shape, bytes),
        None => Ok(None),
    }
}
