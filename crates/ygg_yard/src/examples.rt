ghost use Rattle.std.specs.Prelude.{◌≡◌, IfOk};
ghost use Rattle.ygg_yard.specs.Texts.{example_of};

use crate::texts::{BOOTS, ENDS, FLAG, LAZY, MIXER, MOVER, PAIR, TWIN};
use std::alloc::Global;
use ygg_base::{NoMemory, Text};

/// The example of this number, from 1 to 8; `None` at any other number. Its only error is out of memory.
pub fn example(alloc: Global, number: u32) -> Result<Option<Text>, NoMemory>
    ensures { IfOk result (λ text. text ≡ example_of number) }
{
    let text = match number {
        1 => FLAG,
        2 => PAIR,
        3 => LAZY,
        4 => TWIN,
        5 => ENDS,
        6 => BOOTS,
        7 => MOVER,
        8 => MIXER,
        _ => return Ok(None),
    };
    let copied = Text::from_slice(alloc, text)?;
    Ok(Some(copied))
}
