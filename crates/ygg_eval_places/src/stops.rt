//! Stops by place.

ghost use Rattle.std.specs.Prelude.{◌≡◌, IfOk};
ghost use Rattle.ygg_eval_places.specs.Bits.{bits_in};
ghost use Rattle.ygg_eval_places.specs.ygg_sym_runs.Stops.{before_at, within_at};

use crate::add;
use crate::bits::Choices;
use ygg_list::NoMemory;

/// Whether the stop before the question at a place is set. Its only error is out of memory, where the places are too many.
pub fn stops_before(stops: Choices<'_>, place: u64) -> Result<bool, NoMemory>
    ensures { IfOk result (λ b. b ≡ bits_in stops.entry (before_at place)) }
{
    let at = add(place, place)?;
    stops.bit(at)
}

/// Whether the stop within the question at a place is set. Its only error is out of memory, where the places are too many.
pub fn stops_within(stops: Choices<'_>, place: u64) -> Result<bool, NoMemory>
    ensures { IfOk result (λ b. b ≡ bits_in stops.entry (within_at place)) }
{
    let before = add(place, place)?;
    let at = add(before, 1)?;
    stops.bit(at)
}
