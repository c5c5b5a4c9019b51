//! Shapes as they are written in a layer file, and as a person is told of them.

use crate::tokens::{behind, keyword_at, number_at};
use std::alloc::{AllocError, Global};
use ygg_base::{Keyword, Token};
use ygg_value::Shape;

/// The shape of a word of so many bits.
pub fn word(width: u64) -> Option<Shape> {
    let width = u8::try_from(width).ok()?;
    Some(Shape::Word { width })
}

/// The shape of a row of so many words.
pub fn row(words: u64, width: u64) -> Option<Shape> {
    let words = u8::try_from(words).ok()?;
    let width = u8::try_from(width).ok()?;
    Some(Shape::Row { words, width })
}

/// The shape of a table of so many rows.
pub fn table(rows: u64, words: u64, width: u64) -> Option<Shape> {
    let rows = u16::try_from(rows).ok()?;
    let words = u8::try_from(words).ok()?;
    let width = u8::try_from(width).ok()?;
    Some(Shape::Table { rows, words, width })
}

/// Whether it is a word's shape.
pub fn is_word(shape: Shape) -> bool {
    match shape {
        Shape::Word { .. } => true,
        Shape::Row { .. } | Shape::Table { .. } => false,
    }
}

/// The width of the words in a value of this shape.
pub fn width_of(shape: Shape) -> u8 {
    match shape {
        Shape::Word { width } | Shape::Row { width, .. } | Shape::Table { width, .. } => width,
    }
}

/// What an index leads to: a word of a row, a row of a table.
fn part(shape: Shape) -> Option<Shape> {
    match shape {
        Shape::Word { .. } => None,
        Shape::Row { width, .. } => Some(Shape::Word { width }),
        Shape::Table { words, width, .. } => Some(Shape::Row { words, width }),
    }
}

/// What so many indices lead to.
pub fn part_of(whole: Shape, indices: usize) -> Option<Shape> {
    let mut shape = whole;
    for _ in 0..indices {
        shape = part(shape)?;
    }
    Some(shape)
}

/// The shape that a type names which is written from a place on: `word W`, `row M of W`, or `table N of M of W`.
pub fn shape_written(all: &[Token], place: usize) -> Option<Shape> {
    let keyword = keyword_at(all, place)?;
    let first = number_at(all, behind(place, 1))?;
    if keyword == Keyword::Word {
        return word(first);
    }
    let second = number_at(all, behind(place, 3))?;
    if keyword == Keyword::Row {
        return row(first, second);
    }
    let third = number_at(all, behind(place, 5))?;
    if keyword == Keyword::Table {
        return table(first, second, third);
    }
    None
}

/// A shape as its type is written.
pub fn shown(alloc: Global, shape: Shape) -> Result<String, AllocError> {
    match shape {
        Shape::Word { width } => format!(in alloc; "word {width}"),
        Shape::Row { words, width } => format!(in alloc; "row {words} of {width}"),
        Shape::Table { rows, words, width } => format!(in alloc;
            "table {rows} of {words} of {width}"
        ),
    }
}
