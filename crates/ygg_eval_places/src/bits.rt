//! Bits by place.

ghost use Rattle.std.specs.Prelude.{◌≡◌, ◌+◌, IfOk};
ghost use Rattle.ygg_eval_places.specs.Bits.{bit_at};

use crate::add;
use ygg_list::NoMemory;

/// Bits by place, of which a part of a run sees those from a place on. Past the end of the list they are 0.
#[derive(Clone, Copy)]
pub struct Choices<'a> {
    pub bits: &'a [bool],
    pub first: u64,
}

impl<'a> Choices<'a> {
    /// The bit of a place. Its only error is out of memory, where the places are 2^64 or more.
    pub fn bit(&self, place: u64) -> Result<bool, NoMemory>
        ensures { IfOk result (λ b. b ≡ bit_at self.now.bits.now (self.now.first + place)) }
    {
        let at = add(self.first, place)?;
        Ok(bit_at(self.bits, at))
    }

    /// The bits from a place on. Its only error is out of memory, where the places are 2^64 or more.
    pub fn after(&self, place: u64) -> Result<Choices<'a>, NoMemory>
        ensures bits { IfOk result (λ c. c.bits.now ≡ self.now.bits.now) }
        ensures first { IfOk result (λ c. c.first ≡ self.now.first + place) }
    {
        let first = add(self.first, place)?;
        Ok(Choices {
            bits: self.bits,
            first,
        })
    }
}

/// The bit of a place; 0 past the end.
pub fn bit_at(bits: &[bool], place: u64) -> bool
    ensures { result ≡ bit_at bits.now place }
{
    bits.get(place as usize).copied().unwrap_or(false)
}
