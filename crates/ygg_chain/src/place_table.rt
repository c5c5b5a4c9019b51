//! Places by variable, in memory for as many variables as there are.

ghost use Rattle.std.specs.Prelude.{◌≡◌, ◌≢◌, ℕ, ◌<◌, ◌+◌, ◌^◌, None, Some, get_or, length, nat_eq, OnOk, OnErr};
ghost use Rattle.indexmap.specs.IndexMap.{get};
ghost use Rattle.ygg_chain.specs.PlaceTable.{place_of};

use indexmap::IndexMap;
use std::alloc::Global;
use ygg_list::NoMemory;

/// The places of variables. Where a variable's number was small for how many there were when it came, its place is near, in a table by
/// number; else it is far, in a hash map. The table is at most 64 longer than twice as many as there are variables.
pub struct PlaceTable {
    // by number the place and 1 more, or 0 where none is near
    near: Vec<u32>,
    far: IndexMap<u64, u32>,
}

impl Drop for PlaceTable {
    fn drop(self) {
        let PlaceTable { near, far } = self;
        drop(near);
        drop(far);
    }
}

impl PlaceTable {
    /// No places. It takes no memory.
    pub fn new(alloc: Global) -> PlaceTable
        ensures { (v : ℕ) → place_of result v ≡ None }
    {
        PlaceTable {
            near: Vec::new(alloc),
            far: IndexMap::new(alloc),
        }
    }

    /// The place of a variable, if it has one.
    #[inline(always)]
    pub fn get(&self, variable: u64) -> Option<u32>
        ensures { result ≡ place_of self.now variable }
    {
        match self.near.get(variable as usize) {
            None | Some(0) => self.far_place(variable),
            Some(held) => Some(*held - 1),
        }
    }

    /// The far place of a variable, if it has one.
    #[cold]
    #[inline(never)]
    fn far_place(&self, variable: u64) -> Option<u32>
        ensures { result ≡ get nat_eq self.now.far variable }
    {
        self.far.get(&variable).copied()
    }

    /// Gives a variable that has no place the next one, which is how many have one. After running out of memory each variable has the
    /// place that it had.
    pub fn insert(&mut self, variable: u64, place: u32) -> Result<(), NoMemory>
        requires small { place < 2 ^ 31 }
        requires fresh { place_of self.old variable ≡ None }
        ensures here { OnOk result (place_of self.new variable ≡ Some place) }
        ensures others { OnOk result ((v : ℕ) → v ≢ variable → place_of self.new v ≡ place_of self.old v) }
        ensures err { OnErr result ((v : ℕ) → place_of self.new v ≡ place_of self.old v) }
    {
        self.widen(variable, 2 * place as usize + 64)?;
        if variable < self.near.len() as u64 {
            self.near[variable as usize] = place + 1;
            return Ok(());
        }
        self.far.insert(variable, place)?;
        Ok(())
    }

    /// Makes the table so long, where the variable is one of the numbers that this adds. No place changes.
    fn widen(&mut self, variable: u64, size: usize) -> Result<(), NoMemory>
        ensures near { (v : ℕ) → get_or self.new.near.items v 0 ≡ get_or self.old.near.items v 0 }
        ensures far { self.new.far ≡ self.old.far }
    {
        if self.near.len() as u64 <= variable && variable < size as u64 {
            self.near.resize(size, 0)?;
        }
        Ok(())
    }
}
