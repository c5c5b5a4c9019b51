//! The shapes of declared names.

ghost use Rattle.std.specs.Prelude.{◌≡◌};
ghost use Rattle.ygg_value.specs.Shapes.{IsShape};
ghost use Rattle.ygg_meaning_laws.specs.ygg_meaning.Shapes.{shape_in};

use ygg_syntax::tree::TypeText;
use ygg_value::Shape;

/// The shape that a type stands for.
pub fn shape_of(text: TypeText) -> Shape
    requires { IsShape (shape_in text) }
    ensures { result ≡ shape_in text }
{
    match text {
        TypeText::Word(width) => Shape::Word {
            width: width.value as u8,
        },
        TypeText::Row(words, width) => Shape::Row {
            words: words.value as u8,
            width: width.value as u8,
        },
        TypeText::Table(rows, words, width) => Shape::Table {
            rows: rows.value as u16,
            words: words.value as u8,
            width: width.value as u8,
        },
    }
}
