//! The disk, whose calls take the bits of their places.

ghost use Rattle.std.specs.Prelude.{◌≡◌, ℕ, ◌++◌, Bool, List, [], ◌∷◌, nat_lt, if◌then◌else◌, IfOk, OnOk, IsTrue};
ghost use Rattle.ygg_eval_places.specs.Bits.{bits_in};
ghost use Rattle.ygg_eval_places.specs.Steps.{Answered, FellBetween, FellWithin, one_pick, whole_answer};
ghost use Rattle.ygg_eval.specs.Layers.{signatures_at, variables_at};
ghost use Rattle.ygg_eval.specs.ygg_meaning.Progress.{Call};
ghost use Rattle.ygg_eval.specs.ygg_meaning.Shapes.{values_fit};
ghost use Rattle.ygg_syntax.specs.declared.grammar.BlockKind.TheVariants.{Impl};
ghost use Rattle.ygg_eval.specs.ygg_meaning_laws.Questions.{question_fits};

use crate::bits::Choices;
use std::alloc::Global;
use std::mem;
use ygg_base::{Bits, Text};
use ygg_eval::{Lower, Picks, Power, Turn, Typed, place_of, spec_lower};
use ygg_list::NoMemory;
use ygg_value::{Value, Values};

/// Power with one pick. Its only error is out of memory.
fn power_of(alloc: Global, pick: bool) -> Result<Power, NoMemory>
    ensures { IfOk result (λ power. power ≡ one_pick pick) }
{
    let mut bits = Bits::new(alloc);
    bits.push(pick)?;
    Ok(Power {
        picks: Picks {
            bits,
            next: 0,
            past: false,
        },
        fuse: None,
        passed: 0,
        events: None,
    })
}

/// Notes the pick where it was taken. Its only error is out of memory.
fn note(pick: bool, power: &Power, picks: &mut Bits) -> Result<(), NoMemory>
    ensures { OnOk result (picks.new ≡ picks.old ++ (if nat_lt 0 power.now.picks.next then pick ∷ [] else [])) }
{
    if power.picks.next > 0 {
        return picks.push(pick);
    }
    Ok(())
}

/// The answer of a whole call.
fn answer_in(turn: Turn) -> Option<Value>
    ensures { result ≡ whole_answer turn }
{
    match turn {
        Turn::Answer(value) => Some(value),
        Turn::Done | Turn::Down | Turn::Failed => None,
    }
}

/// A whole call at a place: a write on an asynchronous disk takes the bit of the place, and notes it. Its only error is out of memory, after
/// which nothing is said of the values and the picks.
pub fn call(
    alloc: Global,
    typed: &Typed,
    name: &Text,
    args: &Values,
    choices: Choices<'_>,
    place: u64,
    low: &mut Values,
    picks: &mut Bits,
) -> Result<Option<Value>, NoMemory>
    requires fits { IsTrue (values_fit (variables_at typed.now.file 0) low.old) }
    requires asks { IsTrue (question_fits Impl (signatures_at typed.now.file 0) (Call name.now args.now)) }
    ensures { IfOk result (λ answer. Answered typed.now.file 0 (bits_in choices.entry) place (Call name.now args.now) low.old answer low.new
        picks.old picks.new) }
{
    let pick = choices.bit(place)?;
    let mut power = power_of(alloc, pick)?;
    let op = place_of(typed, 0, name);
    let tables = mem::replace(low, Values::new(alloc));
    let mut disk = spec_lower(alloc, typed, 0, tables)?;
    let turn = disk.call(typed, op, args, &mut power)?;
    note(pick, &power, picks)?;
    *low = disk.state().copy(alloc)?;
    Ok(answer_in(turn))
}

/// What power leaves that fails within a call: a write takes the first bit, and notes it. Its only error is out of memory, after which nothing
/// is said of the picks.
pub fn cut(
    alloc: Global,
    typed: &Typed,
    name: &Text,
    args: &Values,
    last: Choices<'_>,
    low: &Values,
    picks: &mut Bits,
) -> Result<Values, NoMemory>
    requires fits { IsTrue (values_fit (variables_at typed.now.file 0) low.now) }
    requires asks { IsTrue (question_fits Impl (signatures_at typed.now.file 0) (Call name.now args.now)) }
    ensures { IfOk result (λ fallen. FellWithin typed.now.file 0 (bits_in last.entry) (Call name.now args.now) low.now fallen picks.old
        picks.new) }
{
    let pick = last.bit(0)?;
    let mut power = power_of(alloc, pick)?;
    let op = place_of(typed, 0, name);
    let tables = low.copy(alloc)?;
    let mut disk = spec_lower(alloc, typed, 0, tables)?;
    disk.fall(typed, op, args, &mut power)?;
    note(pick, &power, picks)?;
    disk.state().copy(alloc)
}

/// What power leaves that fails between calls, which takes no pick. Its only error is out of memory.
pub fn lose(alloc: Global, typed: &Typed, low: &Values) -> Result<Values, NoMemory>
    requires { IsTrue (values_fit (variables_at typed.now.file 0) low.now) }
    ensures { IfOk result (λ fallen. (last : ℕ → Bool) (picks : List Bool) → FellBetween typed.now.file 0 last low.now fallen picks picks) }
{
    let mut power = power_of(alloc, false)?;
    let tables = low.copy(alloc)?;
    let mut disk = spec_lower(alloc, typed, 0, tables)?;
    disk.lose(typed, &mut power)?;
    disk.state().copy(alloc)
}
