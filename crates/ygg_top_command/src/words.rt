//! Numbers among the words.

ghost use Rattle.std.specs.Prelude.{◌≡◌, ◌<◌, ◌≤◌, ◌^◌, ℕ, Option, Some, IfOk, IfErr, MatchOption};
ghost use Rattle.std.specs.Fmt.{decimal};
ghost use Rattle.ygg_top_command.specs.Words.{IsNumber, IsNoNumber, IsBudget, IsNoBudget};
ghost use Rattle.ygg_top_command.specs.Fetched.{IsBudgetless};

use crate::stopping::CommandStop;
use std::alloc::Global;
use ygg_base::{NoMemory, Reason};

/// The budget where none is given.
pub const USUAL_BUDGET: u32 = 200_000;

/// The greatest budget.
const MOST_BUDGET: u32 = 10_000_000;

/// The number that a word may be read as: where it is one in decimal digits without a sign or a leading zero, that one.
fn number_in(word: &[u8]) -> Option<u32>
    ensures { (n : ℕ) → n < 2 ^ 32 → word.now ≡ decimal n → result ≡ Some n }
{
    match std::str::from_utf8(word) {
        Ok(text) => match text.parse::<u32>() {
            Ok(number) => Some(number),
            Err(_) => None,
        },
        Err(_) => None,
    }
}

/// The number that a word is: one from 1 to the greatest in decimal digits, without a sign or a leading zero. Its only error is out of memory.
pub fn number_up_to(alloc: Global, word: &[u8], greatest: u32) -> Result<Option<u32>, NoMemory>
    ensures { IfOk result (λ found. MatchOption found (IsNoNumber greatest word.now) (IsNumber greatest word.now)) }
{
    let Some(number) = number_in(word) else {
        return Ok(None);
    };
    if number < 1 || number > greatest {
        return Ok(None);
    }
    let written = format!(in alloc; "{number}")?;
    if written.as_bytes() == word {
        Ok(Some(number))
    } else {
        Ok(None)
    }
}

/// The budget that a word is: a number from 1 to 10,000,000 in decimal digits, without a sign or a leading zero. Another word, the second after the
/// command's, is refused 72 at `0:2`.
pub fn budget(alloc: Global, word: &[u8]) -> Result<u32, CommandStop>
    ensures found { IfOk result (IsBudget word.now) }
    ensures none { IfErr result (IsBudgetless word.now) }
{
    match number_up_to(alloc, word, MOST_BUDGET) {
        Ok(Some(budget)) => Ok(budget),
        Ok(None) => Err(CommandStop::Refused(Reason::Number.at(0, 2))),
        Err(_) => Err(CommandStop::NoMemory),
    }
}
