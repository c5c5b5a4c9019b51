//! Goals, each made when it is asked for.

use crate::item::{HeldGoal, Wanted};
use std::alloc::Global;
use ygg_list::NoMemory;

/// Goals in order, each made when it is asked for, so that not all need be in memory.
pub trait Goals {
    ghost use Rattle.std.specs.Prelude.{◌≡◌, List, slice_get, IfOk};
    ghost use Rattle.ygg_cert.specs.declared.item.Goal.{Goal};

    /// The goals.
    ghost wanted: { Self → List Goal };

    /// The goal at a place, counted from 0, where there is one, with its clauses held by a checker. Its only error is out of memory.
    fn goal(&self, alloc: Global, place: usize) -> Result<Option<HeldGoal>, NoMemory>
        ensures { IfOk result (λ goal. goal ≡ slice_get (wanted self.now) place) };
}

impl Goals for Wanted {
    ghost wanted = { λ goals. goals };

    fn goal(&self, alloc: Global, place: usize) -> Result<Option<HeldGoal>, NoMemory> {
        match self.as_slice().get(place) {
            Some(goal) => Ok(Some(HeldGoal::of(alloc, goal)?)),
            None => Ok(None),
        }
    }
}
