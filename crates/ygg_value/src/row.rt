ghost use Rattle.std.specs.Prelude.{◌≡◌, ◌↔◌, length, replicate, IsTrue, IfOk};
ghost use Rattle.ygg_value.specs.Shapes.{IsShape, IsValue, zero_of, shape_of};
ghost use Rattle.ygg_value.specs.declared.shape.Shape.TheVariants as shape;
ghost use Rattle.ygg_value.specs.Values.{row_read, row_write, table_read, table_write, same_value};

use crate::NoRoom;
use crate::shape::Shape;
use crate::word::Word;
use std::alloc::Global;
use std::marker::Model;
use ygg_list::{Duplicate, Sequence};

/// 1 to 64 words of one width, which contracts see as that width and the list of their numbers.
#[derive(Drop)]
pub struct Row {
    width: u8,
    words: Vec<u64>,
}

impl Model for Row {
    ghost use Rattle.ygg_value.specs.Number.{Digits, IsRow};

    ghost Value = { Digits };

    ghost view = { λ r. record { width = r.width; words = r.words.items } };

    ghost invariant = { λ r. IsRow (record { width = r.width; words = r.words.items }) };
}

/// 1 to 256 rows of as many words each, at most 4,096 words in all, which contracts see as the list of the rows' lists of numbers.
#[derive(Drop)]
pub struct Table {
    width: u8,
    words: u8,
    rows: u16,
    // one row after another
    numbers: Vec<u64>,
}

impl Model for Table {
    ghost use Rattle.std.specs.Simd.{first_chunks};
    ghost use Rattle.ygg_value.specs.Flat.{IsFlat};
    ghost use Rattle.ygg_value.specs.Number.{Grid};

    ghost Value = { Grid };

    ghost view = { λ t. record { width = t.width; words = t.words; rows = first_chunks t.words t.rows t.numbers.items } };

    ghost invariant = { λ t. IsFlat t.width t.words t.rows t.numbers.items };
}

/// A word, a row or a table.
pub enum Value {
    Word(Word),
    Row(Row),
    Table(Table),
}

impl Drop for Value {
    fn drop(self) {
        match self {
            Value::Word(_) => {}
            Value::Row(row) => drop(row),
            Value::Table(table) => drop(table),
        }
    }
}

/// Values in order.
pub type Values = Sequence<Value>;

/// The word at a place of a row, counted from 0; 0 past the end.
pub fn row_read(row: &Row, at: Word) -> Word
    ensures { result ≡ row_read row.now at.bits }
{
    let bits = row.words.get(at.bits as usize).copied().unwrap_or(0);
    Word {
        width: row.width,
        bits,
    }
}

/// Puts a word at a place of a row, counted from 0. Past the end nothing changes.
pub fn row_write(row: &mut Row, at: Word, word: Word)
    requires { word.width ≡ row.old.width }
    ensures value { row.new ≡ row_write row.old at.bits word }
    ensures words { length row.new.words ≡ length row.old.words }
{
    if let Some(place) = row.words.get_mut(at.bits as usize) {
        *place = word.bits;
    }
}

/// Puts the row at a place of a table, counted from 0, into `into`; zeros past the end.
pub fn table_read(table: &Table, at: Word, into: &mut Row)
    requires width { into.old.width ≡ table.now.width }
    requires words { length into.old.words ≡ table.now.words }
    ensures value { into.new ≡ table_read table.now at.bits }
    ensures words { length into.new.words ≡ length into.old.words }
{
    let words = table.words as usize;
    if at.bits < table.rows as u64 {
        let start = at.bits as usize * words;
        into.words
            .copy_from_slice(&table.numbers[start..start + words]);
    } else {
        into.words.fill(0);
    }
}

/// Puts a row at a place of a table, counted from 0. Past the end nothing changes.
pub fn table_write(table: &mut Table, at: Word, row: &Row)
    requires width { row.now.width ≡ table.old.width }
    requires words { length row.now.words ≡ table.old.words }
    ensures value { table.new ≡ table_write table.old at.bits row.now }
    ensures rows { length table.new.rows ≡ length table.old.rows }
{
    let words = table.words as usize;
    if at.bits < table.rows as u64 {
        let start = at.bits as usize * words;
        table.numbers[start..start + words].copy_from_slice(&row.words);
    }
}

/// Whether two values are equal: one shape, and the same numbers.
pub fn same(a: &Value, b: &Value) -> bool
    ensures equal { IsTrue result ↔ (a.now ≡ b.now) }
    ensures value { result ≡ same_value a.now b.now }
{
    match (a, b) {
        (Value::Word(a), Value::Word(b)) => a == b,
        (Value::Row(a), Value::Row(b)) => same_row(a, b),
        (Value::Table(a), Value::Table(b)) => same_table(a, b),
        _ => false,
    }
}

fn same_row(a: &Row, b: &Row) -> bool
    ensures { IsTrue result ↔ (a.now ≡ b.now) }
{
    a.width == b.width && a.words == b.words
}

fn same_table(a: &Table, b: &Table) -> bool
    ensures { IsTrue result ↔ (a.now ≡ b.now) }
{
    // rows of one length with the same numbers are as many
    a.width == b.width && a.words == b.words && a.numbers == b.numbers
}

/// The value of a shape whose numbers are all 0. Its only error is out of memory.
pub fn zero(alloc: Global, shape: Shape) -> Result<Value, NoRoom>
    requires { IsShape shape }
    ensures { IfOk result (λ value. value ≡ zero_of shape) }
{
    match shape {
        Shape::Word { width } => Ok(Value::Word(Word { width, bits: 0 })),
        Shape::Row { words, width } => Ok(Value::Row(zero_row(alloc, words, width)?)),
        Shape::Table { rows, words, width } => {
            Ok(Value::Table(zero_table(alloc, rows, words, width)?))
        }
    }
}

/// A row of zeros. Its only error is out of memory.
pub fn zero_row(alloc: Global, words: u8, width: u8) -> Result<Row, NoRoom>
    requires { IsShape (shape.Row words width) }
    ensures { IfOk result (λ row. row ≡ record { width = width; words = replicate words 0 }) }
{
    Ok(Row {
        width,
        words: vec![in alloc; 0; words as usize]?,
    })
}

/// A table of zeros. Its only error is out of memory.
pub fn zero_table(alloc: Global, rows: u16, words: u8, width: u8) -> Result<Table, NoRoom>
    requires { IsShape (shape.Table rows words width) }
    ensures { IfOk result (λ table. table ≡ record { width = width; words = words; rows = replicate rows (replicate words 0) }) }
{
    Ok(Table {
        width,
        words,
        rows,
        numbers: vec![in alloc; 0; rows as usize * words as usize]?,
    })
}

/// An equal value. Its only error is out of memory.
pub fn copy_value(alloc: Global, value: &Value) -> Result<Value, NoRoom>
    ensures { IfOk result (λ copy. copy ≡ value.now) }
{
    match value {
        Value::Word(word) => Ok(Value::Word(*word)),
        Value::Row(row) => Ok(Value::Row(row.duplicate(alloc)?)),
        Value::Table(table) => Ok(Value::Table(table.duplicate(alloc)?)),
    }
}

/// The shape of a value.
pub fn shape_of(value: &Value) -> Shape
    ensures shape { result ≡ shape_of value.now }
    ensures limits { IsShape result }
    ensures value { IsValue value.now }
{
    match value {
        Value::Word(word) => Shape::Word { width: word.width },
        Value::Row(row) => Shape::Row {
            words: row.words.len() as u8,
            width: row.width,
        },
        Value::Table(table) => Shape::Table {
            rows: table.rows,
            words: table.words,
            width: table.width,
        },
    }
}

impl Duplicate for Row {
    fn duplicate(&self, alloc: Global) -> Result<Row, NoRoom> {
        Ok(Row {
            width: self.width,
            words: Vec::from_slice(alloc, &self.words)?,
        })
    }
}

impl Duplicate for Table {
    fn duplicate(&self, alloc: Global) -> Result<Table, NoRoom> {
        Ok(Table {
            width: self.width,
            words: self.words,
            rows: self.rows,
            numbers: Vec::from_slice(alloc, &self.numbers)?,
        })
    }
}

impl Duplicate for Value {
    fn duplicate(&self, alloc: Global) -> Result<Value, NoRoom> {
        copy_value(alloc, self)
    }
}
