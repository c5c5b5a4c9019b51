//! Parts that are put together as they are read. A function that puts its parts together so owns none of them where it ends early.

ghost use Rattle.std.specs.Prelude.{◌≡◌, Ok, Some, None};
ghost use Rattle.ygg_read.specs.ExpressionSteps.{IfRead, IfRefused, Added};

use sqlite_items::Items;
use ygg_list::NoMemory;

/// The part that a call has read. Where it has read none, or no memory was left, the function ends so too. A `?` and a `let .. else` would say the same; but
/// `?` has the type of what is read as a parameter, which the prover spells out, with all trees in it.
macro_rules! part {
    ($read:expr) => {
        match $read {
            Ok(Some(part)) => part,
            Ok(None) => return Ok(None),
            Err(none) => return Err(none),
        }
    };
}

pub(crate) use part;

/// A part that was read, and what was read after it, where something was. The only error is that of the second part.
pub fn both<A: Drop, B: Drop>(
    first: A,
    second: Result<Option<B>, NoMemory>,
) -> Result<Option<(A, B)>, NoMemory>
    ensures read { IfRead result (λ parts. (first ≡ parts.0) × (second ≡ Ok (Some parts.1))) }
    ensures refused { IfRefused result (second ≡ Ok None) }
{
    let Some(second) = second? else {
        return Ok(None);
    };
    Ok(Some((first, second)))
}

/// A list, and what was read for it at its end, where something was. The errors are that of the part and out of memory.
pub fn added<A: Drop>(
    list: Items<A>,
    next: Result<Option<A>, NoMemory>,
) -> Result<Option<Items<A>>, NoMemory>
    ensures read { IfRead result (λ all. Added list next all) }
    ensures refused { IfRefused result (next ≡ Ok None) }
{
    let mut all = list;
    let Some(next) = next? else {
        return Ok(None);
    };
    all.push(next)?;
    Ok(Some(all))
}
