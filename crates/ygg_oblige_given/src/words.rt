//! How many words values have, and so how many inputs.

ghost use Rattle.std.specs.Prelude.{◌≡◌, IfOk};
ghost use Rattle.ygg_oblige_laws.specs.ygg_meaning.Shapes.{shape_in};
ghost use Rattle.ygg_oblige_laws.specs.ygg_shape.Fresh.{words_of};
ghost use Rattle.ygg_oblige_laws.specs.LayerTerms.{ShapesKept};
ghost use Rattle.ygg_oblige_laws.specs.TermStates.{words_in};
ghost use Rattle.ygg_value.specs.Shapes.{IsShape};

use ygg_list::NoMemory;
use ygg_syntax::tree::{Declared, TypeText};

/// How many words a value has whose type this is.
pub fn words_of(text: TypeText) -> u64
    requires { IsShape (shape_in text) }
    ensures { result ≡ words_of (shape_in text) }
{
    match text {
        TypeText::Word(_) => 1,
        TypeText::Row(words, _) => words.value,
        TypeText::Table(rows, words, _) => rows.value * words.value,
    }
}

/// How many words the values of declared names have. Its only error is out of memory: no machine has memory for 2^64 of them.
pub fn words_in(declared: &[Declared]) -> Result<u64, NoMemory>
    requires { ShapesKept declared.now }
    ensures { IfOk result (λ n. n ≡ words_in declared.now) }
{
    let mut count: u64 = 0;
    for variable in declared {
        match count.checked_add(words_of(variable.shape)) {
            Some(more) => count = more,
            None => return Err(NoMemory),
        }
    }
    Ok(count)
}
