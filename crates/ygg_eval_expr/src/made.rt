//! Values that are made of others.

ghost use Rattle.std.specs.Prelude.{◌≡◌, ◌≤◌, ◌<◌, ◌^◌, IfOk};
ghost use Rattle.ygg_value.specs.Words.{word};
ghost use Rattle.ygg_value.specs.Values.{word_in, apply_value, part_of, digit};
ghost use Rattle.ygg_meaning_laws.specs.Meaning.{is_one};
ghost use Rattle.ygg_eval_expr.specs.Words.{row_from, AreOfRow, CanOperate};

use std::alloc::Global;
use ygg_list::NoMemory;
use ygg_value::{
    Op, Row, Shape, Table, Value, Word, apply, row_read, row_write, same, shape_of, table_read,
    zero_row,
};

/// A single digit that says whether the test passes.
pub fn digit(test: bool) -> Value
    ensures { result ≡ digit test }
{
    Value::Word(Word {
        width: 1,
        bits: if test { 1 } else { 0 },
    })
}

/// The word that a value is; a single digit 0 of a row or a table.
pub fn word_in(value: &Value) -> Word
    ensures { result ≡ word_in value.now }
{
    match value {
        Value::Word(word) => *word,
        _ => Word { width: 1, bits: 0 },
    }
}

/// Whether a value is a word of 1.
pub fn is_one(value: &Value) -> bool
    ensures { result ≡ is_one value.now }
{
    word_in(value).bits == 1
}

/// What an operation gives of two values.
pub fn operated(op: Op, a: &Value, b: &Value) -> Value
    requires { CanOperate op a.now b.now }
    ensures { result ≡ apply_value op a.now b.now }
{
    match op {
        Op::Eq => digit(same(a, b)),
        Op::Ne => digit(!same(a, b)),
        _ => Value::Word(apply(op, word_in(a), word_in(b))),
    }
}

/// The word or the row at a place of a value; a single digit 0 of a word. Its only error is out of memory.
pub fn part(alloc: Global, whole: &Value, at: Word) -> Result<Value, NoMemory>
    ensures { IfOk result (λ part. part ≡ part_of whole.now at.bits) }
{
    match (whole, shape_of(whole)) {
        (Value::Row(row), _) => Ok(Value::Word(row_read(row, at))),
        (Value::Table(table), Shape::Table { words, width, .. }) => {
            let mut row = zero_row(alloc, words, width)?;
            table_read(table, at, &mut row);
            Ok(Value::Row(row))
        }
        _ => Ok(Value::Word(Word { width: 1, bits: 0 })),
    }
}

/// A row of these words. Its only error is out of memory.
pub fn row(alloc: Global, words: &[Word]) -> Result<Row, NoMemory>
    requires { AreOfRow words.now }
    ensures { IfOk result (λ row. row ≡ row_from words.now) }
{
    let first = words[0];
    let mut row = zero_row(alloc, words.len() as u8, first.width)?;
    for (i, word) in words.iter().enumerate() {
        let place = Word {
            width: 64,
            bits: i as u64,
        };
        row_write(&mut row, place, *word);
    }
    Ok(row)
}
