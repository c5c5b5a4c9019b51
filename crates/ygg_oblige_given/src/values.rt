//! Values of shapes that inputs give.

ghost use Rattle.std.specs.Prelude.{◌≡◌, ◌+◌, IfOk, IsTrue};
ghost use Rattle.ygg_oblige_laws.specs.ygg_meaning.Shapes.{env_fits, fits, shape_in, values_fit, words_fit};
ghost use Rattle.ygg_oblige_laws.specs.Inputs.{given_env};
ghost use Rattle.ygg_oblige_laws.specs.LayerTerms.{ShapesKept};
ghost use Rattle.ygg_oblige_laws.specs.ygg_meaning.Environments.{bind};
ghost use Rattle.ygg_oblige_laws.specs.ygg_shape.Fresh.{given_value, numbers_from, rows_from, words_of};
ghost use Rattle.std.specs.List.{list_all};
ghost use Rattle.ygg_value.specs.Shapes.{IsShape};
ghost use Rattle.ygg_value.specs.declared.shape.Shape.TheVariants as shape;
ghost use Rattle.ygg_oblige_given.specs.Tables.{given_values, inputs_in};

use crate::table::InputTable;
use std::alloc::Global;
use ygg_list::NoMemory;
use ygg_oblige_laws::shape_of;
use ygg_syntax::tree::Declared;
use ygg_value::{
    Row, Shape, Table, Value, Values, Word, row_write, table_write, zero_row, zero_table,
};

/// A place, as a word.
fn place(number: u16) -> Word
    ensures width { result.width ≡ 64 }
    ensures bits { result.bits ≡ number }
{
    Word {
        width: 64,
        bits: u64::from(number),
    }
}

/// A number further on. Its only error is out of memory: no machine has memory for 2^64 inputs.
pub fn further(number: u64, count: u64) -> Result<u64, NoMemory>
    ensures { IfOk result (λ n. n ≡ number + count) }
{
    match number.checked_add(count) {
        Some(n) => Ok(n),
        None => Err(NoMemory),
    }
}

/// How many words a value of a shape has.
fn words_of(shape: Shape) -> u64
    ensures { result ≡ words_of shape }
{
    match shape {
        Shape::Word { .. } => 1,
        Shape::Row { words, .. } => u64::from(words),
        Shape::Table { rows, words, .. } => u64::from(rows) * u64::from(words),
    }
}

impl InputTable {
    /// The row of so many words that inputs give, numbered on from a number. Its only error is out of memory.
    fn row(&self, alloc: Global, number: u64, words: u8, width: u8) -> Result<Row, NoMemory>
        requires shape { IsShape (shape.Row words width) }
        requires fits { IsTrue (words_fit width words (numbers_from (inputs_in self.now) number words)) }
        ensures { IfOk result (λ row. row ≡ record { width = width; words = numbers_from (inputs_in self.now) number words }) }
    {
        let mut row = zero_row(alloc, words, width)?;
        for at in 0..words {
            let input = further(number, u64::from(at))?;
            let word = Word {
                width,
                bits: self.number(input),
            };
            row_write(&mut row, place(u16::from(at)), word);
        }
        Ok(row)
    }

    /// The table of so many rows that inputs give, row by row, numbered on from a number. Its only error is out of memory.
    fn table(
        &self,
        alloc: Global,
        number: u64,
        rows: u16,
        words: u8,
        width: u8,
    ) -> Result<Table, NoMemory>
        requires shape { IsShape (shape.Table rows words width) }
        requires fits { IsTrue (list_all (words_fit width words) (rows_from (inputs_in self.now) number rows words)) }
        ensures { IfOk result (λ table. table ≡ record { width = width; words = words; rows = rows_from (inputs_in self.now) number rows words }) }
    {
        let mut table = zero_table(alloc, rows, words, width)?;
        let mut next = number;
        for at in 0..rows {
            let row = self.row(alloc, next, words, width)?;
            table_write(&mut table, place(at), &row);
            next = further(next, u64::from(words))?;
        }
        Ok(table)
    }

    /// The value of a shape that inputs give, numbered on from a number. Its only error is out of memory.
    fn value(&self, alloc: Global, number: u64, shape: Shape) -> Result<Value, NoMemory>
        requires shape { IsShape shape }
        requires fits { IsTrue (fits shape (given_value (inputs_in self.now) number shape)) }
        ensures { IfOk result (λ v. v ≡ given_value (inputs_in self.now) number shape) }
    {
        match shape {
            Shape::Word { width } => Ok(Value::Word(Word {
                width,
                bits: self.number(number),
            })),
            Shape::Row { words, width } => {
                let row = self.row(alloc, number, words, width)?;
                Ok(Value::Row(row))
            }
            Shape::Table { rows, words, width } => {
                let table = self.table(alloc, number, rows, words, width)?;
                Ok(Value::Table(table))
            }
        }
    }

    /// The values of declared names that inputs give, in order, numbered on from a number. Its only error is out of memory.
    pub fn values(
        &self,
        alloc: Global,
        number: u64,
        declared: &[Declared],
    ) -> Result<Values, NoMemory>
        requires shapes { ShapesKept declared.now }
        requires fit { IsTrue (env_fits declared.now (given_env (inputs_in self.now) number declared.now)) }
        ensures is { IfOk result (λ values. values ≡ given_values (inputs_in self.now) number declared.now) }
        ensures fits { IfOk result (λ values. IsTrue (values_fit declared.now values)) }
        ensures bound { IfOk result (λ values. bind declared.now values ≡ given_env (inputs_in self.now) number declared.now) }
    {
        let mut values = Values::new(alloc);
        let mut next = number;
        for variable in declared {
            let shape = shape_of(variable.shape);
            let value = self.value(alloc, next, shape)?;
            values.push(value)?;
            next = further(next, words_of(shape))?;
        }
        Ok(values)
    }
}
