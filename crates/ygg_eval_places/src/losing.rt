//! Power failure on the machine below, with a bit for each place.

ghost use Rattle.std.specs.Prelude.{◌≡◌, ◌≤◌, [], IfOk, IsTrue, length};
ghost use Rattle.ygg_eval_places.specs.Bits.{bits_in};
ghost use Rattle.ygg_eval_places.specs.Steps.{FellBetween, FellWithin};
ghost use Rattle.ygg_eval.specs.Layers.{signatures_at, variables_at};
ghost use Rattle.ygg_eval.specs.ygg_meaning.Progress.{Call};
ghost use Rattle.ygg_eval.specs.ygg_meaning.Shapes.{values_fit};
ghost use Rattle.ygg_syntax.specs.declared.grammar.BlockKind.TheVariants.{Impl};
ghost use Rattle.ygg_eval.specs.ygg_meaning_laws.Questions.{question_fits};

use crate::bits::Choices;
use crate::{disk, spec};
use std::alloc::Global;
use ygg_base::{Bits, Text};
use ygg_eval::Typed;
use ygg_list::NoMemory;
use ygg_value::Values;

/// What power loss leaves of the values below, and the picks that it takes, from the front.
#[derive(Drop)]
pub struct Lost {
    pub low: Values,
    pub picks: Bits,
}

/// Power fails between operations in the machine with a number, whose values these are. Its only error is out of memory.
pub fn lose_fronts(
    alloc: Global,
    typed: &Typed,
    number: u32,
    low: &Values,
    last: Choices<'_>,
) -> Result<Lost, NoMemory>
    requires there { number ≤ length typed.now.file.layers }
    requires low { IsTrue (values_fit (variables_at typed.now.file number) low.now) }
    ensures lost { IfOk result (λ lost. FellBetween typed.now.file number (bits_in last.entry) low.now lost.low [] lost.picks) }
{
    let mut picks = Bits::new(alloc);
    let low = lose(alloc, typed, number, low, last, &mut picks)?;
    Ok(Lost { low, picks })
}

/// What is left of the values of a machine where power fails between operations, whose picks are put after others. Its only error is out of
/// memory, after which nothing is said of the picks.
pub fn lose(
    alloc: Global,
    typed: &Typed,
    number: u32,
    low: &Values,
    last: Choices<'_>,
    picks: &mut Bits,
) -> Result<Values, NoMemory>
    requires there { number ≤ length typed.now.file.layers }
    requires low { IsTrue (values_fit (variables_at typed.now.file number) low.now) }
    ensures { IfOk result (λ fallen. FellBetween typed.now.file number (bits_in last.entry) low.now fallen picks.old picks.new) }
{
    if number == 0 {
        return disk::lose(alloc, typed, low);
    }
    let mut left = low.copy(alloc)?;
    spec::lose(alloc, typed, number, last, &mut left, picks)?;
    Ok(left)
}

/// What is left of the values of a machine where power fails within a call, whose picks are put after others. Its only error is out of memory,
/// after which nothing is said of the picks.
pub fn cut(
    alloc: Global,
    typed: &Typed,
    number: u32,
    name: &Text,
    args: &Values,
    low: &Values,
    last: Choices<'_>,
    picks: &mut Bits,
) -> Result<Values, NoMemory>
    requires there { number ≤ length typed.now.file.layers }
    requires low { IsTrue (values_fit (variables_at typed.now.file number) low.now) }
    requires asks { IsTrue (question_fits Impl (signatures_at typed.now.file number) (Call name.now args.now)) }
    ensures { IfOk result (λ fallen. FellWithin typed.now.file number (bits_in last.entry) (Call name.now args.now) low.now fallen picks.old
        picks.new) }
{
    if number == 0 {
        return disk::cut(alloc, typed, name, args, last, low, picks);
    }
    let mut left = low.copy(alloc)?;
    spec::cut(alloc, typed, number, name, args, last, &mut left, picks)?;
    Ok(left)
}
