//! Shapes, and the shapes of types.

ghost use Rattle.std.specs.Prelude.{◌≡◌, IfOk};
ghost use Rattle.ygg_type_rules.specs.Shapes.{
  is_word as is_words_shape,
  width_of,
  same_shape,
  part_shape,
  word_shape,
  row_shape,
  table_shape,
  shape_of,
  answer_shape,
};
ghost use Rattle.ygg_type_rules.specs.Definitions.{parameter_shapes};

use crate::limits::{is_row_count, is_width, is_word_count, is_word_count_in};
use std::alloc::Global;
use ygg_list::{NoMemory, Sequence};
use ygg_syntax::tree::{Declared, TypeText};
use ygg_value::Shape;

/// Whether it is a word's shape.
pub fn is_word(shape: Shape) -> bool
    ensures { result ≡ is_words_shape shape }
{
    match shape {
        Shape::Word { .. } => true,
        Shape::Row { .. } => false,
        Shape::Table { .. } => false,
    }
}

/// The width of the words in it.
pub fn width(shape: Shape) -> u8
    ensures { result ≡ width_of shape }
{
    match shape {
        Shape::Word { width } => width,
        Shape::Row { width, .. } => width,
        Shape::Table { width, .. } => width,
    }
}

/// Whether the shapes are equal.
pub fn same(a: Shape, b: Shape) -> bool
    ensures { result ≡ same_shape a b }
{
    match (a, b) {
        (Shape::Word { width: v }, Shape::Word { width: w }) => v == w,
        (Shape::Row { words: l, width: v }, Shape::Row { words: m, width: w }) => l == m && v == w,
        (
            Shape::Table {
                rows: i,
                words: l,
                width: v,
            },
            Shape::Table {
                rows: j,
                words: m,
                width: w,
            },
        ) => i == j && l == m && v == w,
        _ => false,
    }
}

/// What an index leads to: a word of a row, a row of a table.
pub fn part(shape: Shape) -> Shape
    ensures { result ≡ part_shape shape }
{
    match shape {
        Shape::Word { width } => Shape::Word { width },
        Shape::Row { width, .. } => Shape::Word { width },
        Shape::Table { words, width, .. } => Shape::Row { words, width },
    }
}

/// A word of this width, where there may be one.
pub fn word(width: u64) -> Option<Shape>
    ensures { result ≡ word_shape width }
{
    if is_width(width) {
        Some(Shape::Word { width: width as u8 })
    } else {
        None
    }
}

/// A row of so many words of this width, where there may be one.
pub fn row(words: u64, width: u64) -> Option<Shape>
    ensures { result ≡ row_shape words width }
{
    if is_word_count(words) && is_width(width) {
        Some(Shape::Row {
            words: words as u8,
            width: width as u8,
        })
    } else {
        None
    }
}

/// A table of so many such rows, where there may be one.
pub fn table(rows: u64, words: u64, width: u64) -> Option<Shape>
    ensures { result ≡ table_shape rows words width }
{
    if is_row_count(rows) && is_word_count_in(rows, words) && is_width(width) {
        Some(Shape::Table {
            rows: rows as u16,
            words: words as u8,
            width: width as u8,
        })
    } else {
        None
    }
}

/// The shape that a type names. A type with a type error names none.
pub fn named(text: TypeText) -> Option<Shape>
    ensures { result ≡ shape_of text }
{
    match text {
        TypeText::Word(w) => word(w.value),
        TypeText::Row(m, w) => row(m.value, w.value),
        TypeText::Table(n, m, w) => table(n.value, m.value, w.value),
    }
}

/// The shape that an answer's type names, if there is one.
pub fn answer(text: Option<TypeText>) -> Option<Shape>
    ensures { result ≡ answer_shape text }
{
    named(text?)
}

/// The shapes of parameters or arguments. Its only error is out of memory.
pub fn all(alloc: Global, parameters: &[Declared]) -> Result<Sequence<Option<Shape>>, NoMemory>
    ensures { IfOk result (λ shapes. shapes ≡ parameter_shapes parameters.now) }
{
    let mut shapes = Sequence::new(alloc);
    for parameter in parameters {
        shapes.push(named(parameter.shape))?;
    }
    Ok(shapes)
}
