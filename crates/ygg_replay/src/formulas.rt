//! What a layer's author states of states.

ghost use Rattle.std.specs.Prelude.{◌≡◌, IfOk, map, suc};
ghost use Rattle.std.specs.Option.{option_map};
ghost use Rattle.ygg_sched.specs.ygg_meaning.Related.{holds, related, relates, settled, settles};
ghost use Rattle.ygg_replay.specs.Sites.{IsHere, LowFits, StatesFit, closed_in, first_false, low_at, memory_at, vars_at};

use crate::site::ReplaySite;
use ygg_eval::{Formula, Which, holds};
use ygg_list::{NoMemory, Sequence};
use ygg_value::Values;

/// A place as the number of one of a layer's expressions. No machine has memory for more of them than there are such numbers.
pub fn number_of(place: usize) -> Result<u32, NoMemory>
    ensures { IfOk result (λ number. number ≡ place) }
{
    if place <= u32::MAX as usize {
        Ok(place as u32)
    } else {
        Err(NoMemory)
    }
}

impl<'a> ReplaySite<'a> {
    /// Whether the layer's `relate` expression holds.
    fn relate_holds(&self, state: &Values, memory: &Values, low: &Values) -> Result<bool, NoMemory>
        requires here { IsHere self.now }
        requires fits { StatesFit self.now state.now memory.now low.now }
        ensures { IfOk result (λ answer. answer ≡ holds (closed_in self.now) (vars_at self.now state.now) (memory_at self.now memory.now)
            (low_at self.now low.now) self.now.layer.now.relate) }
    {
        let formula = Formula {
            layer: self.place,
            which: Which::Relate,
            number: 0,
        };
        holds(self.alloc, self.typed, formula, state, memory, low)
    }

    /// The first `always` expression that does not hold, counted from 1.
    fn false_always(
        &self,
        state: &Values,
        memory: &Values,
        low: &Values,
    ) -> Result<Option<usize>, NoMemory>
        requires here { IsHere self.now }
        requires fits { StatesFit self.now state.now memory.now low.now }
        ensures { IfOk result (λ place. place ≡ option_map suc (first_false (map (holds (closed_in self.now) (vars_at self.now state.now)
            (memory_at self.now memory.now) (low_at self.now low.now)) self.now.layer.now.always))) }
    {
        for place in 0..self.layer.always.len() {
            let formula = Formula {
                layer: self.place,
                which: Which::Always,
                number: number_of(place)?,
            };
            if !holds(self.alloc, self.typed, formula, state, memory, low)? {
                return Ok(Some(place + 1));
            }
        }
        Ok(None)
    }

    /// The first `settled` expression that does not hold, counted from 0. Its only error is out of memory.
    pub fn false_settled(&self, low: &Values) -> Result<Option<usize>, NoMemory>
        requires here { IsHere self.now }
        requires fits { LowFits self.now low.now }
        ensures { IfOk result (λ place. place ≡ first_false (settles (closed_in self.now)
            (low_at self.now low.now))) }
    {
        let none = Sequence::new(self.alloc);
        for place in 0..self.layer.settled.len() {
            let formula = Formula {
                layer: self.place,
                which: Which::Settled,
                number: number_of(place)?,
            };
            if !holds(self.alloc, self.typed, formula, &none, &none, low)? {
                return Ok(Some(place));
            }
        }
        Ok(None)
    }

    /// The first of the `relate` and the `always` expressions that does not hold, counted from 0. Its only error is out of memory.
    pub fn false_relation(
        &self,
        state: &Values,
        memory: &Values,
        low: &Values,
    ) -> Result<Option<usize>, NoMemory>
        requires here { IsHere self.now }
        requires fits { StatesFit self.now state.now memory.now low.now }
        ensures { IfOk result (λ place. place ≡ first_false (relates (closed_in self.now) (vars_at self.now state.now)
            (memory_at self.now memory.now) (low_at self.now low.now))) }
    {
        if !self.relate_holds(state, memory, low)? {
            return Ok(Some(0));
        }
        self.false_always(state, memory, low)
    }

    /// Whether the layer's relation holds. Its only error is out of memory.
    pub fn related(&self, state: &Values, memory: &Values, low: &Values) -> Result<bool, NoMemory>
        requires here { IsHere self.now }
        requires fits { StatesFit self.now state.now memory.now low.now }
        ensures { IfOk result (λ holds. holds ≡ related (closed_in self.now) (vars_at self.now state.now)
            (memory_at self.now memory.now) (low_at self.now low.now)) }
    {
        let place = self.false_relation(state, memory, low)?;
        Ok(place.is_none())
    }

    /// Whether the base below is settled. Its only error is out of memory.
    pub fn settled(&self, low: &Values) -> Result<bool, NoMemory>
        requires here { IsHere self.now }
        requires fits { LowFits self.now low.now }
        ensures { IfOk result (λ holds. holds ≡ settled (closed_in self.now)
            (low_at self.now low.now)) }
    {
        let place = self.false_settled(low)?;
        Ok(place.is_none())
    }
}
