ghost use Rattle.std.specs.Prelude.{◌≡◌, ◌↔◌, IsTrue};
ghost use Rattle.ygg_eval.specs.ygg_meaning.Shapes.{shape_in, fits, values_fit};

use ygg_syntax::tree::{Declared, TypeText};
use ygg_value::{Shape, Value, shape_of};

/// Whether a type stands for a shape.
fn is_shape(text: TypeText, shape: Shape) -> bool
    ensures { IsTrue result ↔ (shape ≡ shape_in text) }
{
    match (text, shape) {
        (TypeText::Word(w), Shape::Word { width }) => w.value == width as u64,
        (TypeText::Row(m, w), Shape::Row { words, width }) => {
            m.value == words as u64 && w.value == width as u64
        }
        (TypeText::Table(n, m, w), Shape::Table { rows, words, width }) => {
            n.value == rows as u64 && m.value == words as u64 && w.value == width as u64
        }
        _ => false,
    }
}

/// Whether a value has the shape that a type stands for.
pub fn fits(text: TypeText, value: &Value) -> bool
    ensures { result ≡ fits (shape_in text) value.now }
{
    is_shape(text, shape_of(value))
}

/// Whether there is a value of its shape for each declared name, in order.
pub fn values_fit(declared: &[Declared], values: &[Value]) -> bool
    ensures { result ≡ values_fit declared.now values.now }
{
    if declared.len() != values.len() {
        return false;
    }
    for (i, variable) in declared.iter().enumerate() {
        if !fits(variable.shape, &values[i]) {
            return false;
        }
    }
    true
}
