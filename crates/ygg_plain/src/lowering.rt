//! Values with smaller numbers in the same shapes.

ghost use Rattle.std.specs.Prelude.{◌≡◌, length, map, All, IfOk, OnOk};
ghost use Rattle.ygg_value.specs.Shapes.{IsShape, IsValue, shape_of};
ghost use Rattle.ygg_value.specs.declared.shape.Shape.TheVariants as shape;
ghost use Rattle.ygg_plain.specs.Like.{AreLike};

use std::alloc::Global;
use ygg_list::{Duplicate, NoMemory};
use ygg_value::{
    Row, Shape, Table, Value, Values, Word, row_read, row_write, shape_of, table_read, table_write,
    zero_row,
};

/// The values of a schedule that stand together.
#[derive(Clone, Copy, PartialEq, Eq, Drop)]
pub enum Group {
    /// The variables of the layer's specification.
    State,
    /// The variables of its implementation.
    Memory,
    /// The variables of what it stands on.
    Low,
    /// The arguments.
    Arguments,
}

/// A word of a schedule's values.
#[derive(Clone, Copy, Drop)]
pub struct Place {
    /// The values that it stands among.
    pub group: Group,
    /// The place of its value among them.
    pub value: usize,
    /// Its place in the value, where the words of a table stand one row after another.
    pub word: usize,
}

/// Some words of a schedule's values.
#[derive(Clone, Copy, Drop)]
pub enum Words {
    /// All that are this number.
    Equal(u64),
    /// All of the value at a place of a group.
    Whole(Group, usize),
    /// This one.
    One(Place),
    /// Those at this place of each value of what the layer stands on.
    Below(usize),
}

/// Some words, and the number that those of them become that are greater.
#[derive(Clone, Copy, Drop)]
pub struct Lowering {
    /// The words.
    pub words: Words,
    /// The number.
    pub to: u64,
}

impl Lowering {
    /// Whether it is of a word with this number at a place.
    fn is_of(self, at: Place, bits: u64) -> bool {
        match self.words {
            Words::Equal(number) => bits == number,
            Words::Whole(group, value) => at.group == group && at.value == value,
            Words::One(place) => at.group == place.group
                && at.value == place.value
                && at.word == place.word,
            Words::Below(word) => at.group == Group::Low && at.word == word,
        }
    }

    /// A word at a place, lowered.
    fn word(self, at: Place, word: Word) -> Word
        ensures { result.width ≡ word.width }
    {
        if self.to < word.bits && self.is_of(at, word.bits) {
            Word {
                width: word.width,
                bits: self.to,
            }
        } else {
            word
        }
    }

    /// Lowers the words of a row, the first of which stands at a place.
    fn row(self, row: &mut Row, words: u8, first: Place)
        ensures width { row.new.width ≡ row.old.width }
        ensures words { length row.new.words ≡ length row.old.words }
    {
        for k in 0..words {
            let index = Word {
                width: 64,
                bits: k as u64,
            };
            let at = Place {
                group: first.group,
                value: first.value,
                word: first.word.saturating_add(k as usize),
            };
            let lowered = self.word(at, row_read(row, index));
            row_write(row, index, lowered);
        }
    }

    /// Lowers the words of a table of so many rows, the first of which stands at a place; `row` is for a row of it.
    fn table(self, table: &mut Table, row: &mut Row, rows: u16, words: u8, first: Place)
        requires width { row.old.width ≡ table.old.width }
        requires words { length row.old.words ≡ table.old.words }
        ensures width { table.new.width ≡ table.old.width }
        ensures words { table.new.words ≡ table.old.words }
        ensures rows { length table.new.rows ≡ length table.old.rows }
    {
        for k in 0..rows {
            let index = Word {
                width: 64,
                bits: k as u64,
            };
            let at = Place {
                group: first.group,
                value: first.value,
                word: first.word.saturating_add(k as usize * words as usize),
            };
            table_read(table, index, row);
            self.row(row, words, at);
            table_write(table, index, row);
        }
    }

    /// A value whose first word stands at a place, lowered. Its only error is out of memory.
    fn value(self, alloc: Global, value: &Value, first: Place) -> Result<Value, NoMemory>
        ensures { IfOk result (λ lowered. shape_of lowered ≡ shape_of value.now) }
    {
        match value {
            Value::Word(word) => Ok(Value::Word(self.word(first, *word))),
            Value::Row(row) => {
                let mut lowered = row.duplicate(alloc)?;
                if let Shape::Row { words, .. } = shape_of(value) {
                    self.row(&mut lowered, words, first);
                }
                Ok(Value::Row(lowered))
            }
            Value::Table(table) => {
                let mut lowered = table.duplicate(alloc)?;
                if let Shape::Table { rows, words, width } = shape_of(value) {
                    let mut row = zero_row(alloc, words, width)?;
                    self.table(&mut lowered, &mut row, rows, words, first);
                }
                Ok(Value::Table(lowered))
            }
        }
    }

    /// The values of a group, lowered. Its only error is out of memory.
    pub fn values(self, alloc: Global, values: &Values, group: Group) -> Result<Values, NoMemory>
        ensures { IfOk result (AreLike values.now) }
    {
        let mut all = Values::new(alloc);
        for (k, value) in values.as_slice().iter().enumerate() {
            let first = Place {
                group,
                value: k,
                word: 0,
            };
            let lowered = self.value(alloc, value, first)?;
            // it keeps the limits of its shape
            let _ = shape_of(&lowered);
            all.push(lowered)?;
        }
        Ok(all)
    }
}
