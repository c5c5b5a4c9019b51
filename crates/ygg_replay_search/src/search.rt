//! The search.

ghost use Rattle.std.specs.Prelude.{◌≡◌, ◌+◌, ◌∷◌, ◌++◌, [], IfOk, length};
ghost use Rattle.ygg_replay_search.specs.Searching.{IsFirstAfter};

use std::alloc::Global;
use ygg_base::{Bits, NoMemory};

/// A test of lists of picks, which all have the same length.
pub trait Test {
    ghost use Rattle.std.specs.Prelude.{◌≡◌, ℕ, Bool, List, IfOk, length};

    /// What must be known so that it may be asked.
    ghost ready: { Self → Type 0 };

    /// How many picks a list has.
    ghost count: { Self → ℕ };

    /// Whether a list passes.
    ghost passing: { Self → List Bool → Bool };

    /// Whether a list passes. Its only error is out of memory.
    fn passes(&self, picks: &[bool]) -> Result<bool, NoMemory>
        requires ready { ready self.now }
        requires count { length picks.now ≡ count self.now }
        ensures { IfOk result (λ answer. answer ≡ passing self.now picks.now) };
}

/// One pick more. Its only error is out of memory.
fn more_picks(alloc: Global, picks: &[bool], pick: bool) -> Result<Vec<bool>, NoMemory>
    ensures { IfOk result (λ more. more.items ≡ picks.now ++ pick ∷ []) }
{
    let mut more = Vec::from_slice(alloc, picks)?;
    more.push(pick)?;
    Ok(more)
}

/// The first list of picks that begins so, goes on with so many, and passes.
fn first_after<T: Test>(
    alloc: Global,
    test: &T,
    left: u64,
    before: &[bool],
) -> Result<Option<Bits>, NoMemory>
    requires ready { T.ready test.now }
    requires count { length before.now + left ≡ T.count test.now }
    ensures { IfOk result (IsFirstAfter left (T.passing test.now) before.now) }
{
    if left == 0 {
        if test.passes(before)? {
            return Ok(Some(Bits::from_slice(alloc, before)?));
        }
        return Ok(None);
    }
    let without = more_picks(alloc, before, false)?;
    if let Some(first) = first_after(alloc, test, left - 1, without.as_slice())? {
        return Ok(Some(first));
    }
    let chosen = more_picks(alloc, before, true)?;
    first_after(alloc, test, left - 1, chosen.as_slice())
}

/// The first list of so many picks that passes. Its only error is out of memory.
pub fn first_passing<T: Test>(alloc: Global, test: &T, count: u64) -> Result<Option<Bits>, NoMemory>
    requires ready { T.ready test.now }
    requires count { count ≡ T.count test.now }
    ensures { IfOk result (IsFirstAfter count (T.passing test.now) []) }
{
    first_after(alloc, test, count, &[])
}
