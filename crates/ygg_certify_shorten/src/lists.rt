//! Lists of numbers, and numbers by their places.

use std::alloc::Global;
use ygg_list::NoMemory;

/// Lists of numbers, one behind another in one list. The last is open: numbers are added to it until it is closed.
pub struct Lists {
    numbers: Vec<u32>,
    // where each closed list ends
    ends: Vec<usize>,
}

impl Drop for Lists {
    fn drop(self) {
        let Lists { numbers, ends } = self;
        drop(numbers);
        drop(ends);
    }
}

impl Lists {
    /// No lists, but for an open one without numbers.
    pub fn new(alloc: Global) -> Lists {
        Lists {
            numbers: Vec::new(alloc),
            ends: Vec::new(alloc),
        }
    }

    /// How many lists are closed.
    pub fn len(&self) -> usize {
        self.ends.len()
    }

    /// Adds a number to the open list.
    pub fn push(&mut self, number: u32) -> Result<(), NoMemory> {
        self.numbers.push(number)?;
        Ok(())
    }

    /// Closes the open list, behind which another one is open.
    pub fn close(&mut self) -> Result<(), NoMemory> {
        self.ends.push(self.numbers.len())?;
        Ok(())
    }

    /// Adds numbers to the open list, and closes it.
    pub fn push_list(&mut self, numbers: &[u32]) -> Result<(), NoMemory> {
        self.numbers.extend_from_slice(numbers)?;
        self.close()
    }

    /// The closed list at a place; an empty one past the end.
    pub fn at(&self, place: usize) -> &[u32] {
        let start = match place.checked_sub(1) {
            Some(before) => self.end(before),
            None => 0,
        };
        match self.numbers.get(start..self.end(place)) {
            Some(list) => list,
            None => &[],
        }
    }

    /// How many numbers the open list has.
    pub fn open_len(&self) -> usize {
        let closed = match self.ends.last() {
            Some(end) => *end,
            None => 0,
        };
        self.numbers.len().saturating_sub(closed)
    }

    /// Where the closed list at a place ends; 0 past the end.
    fn end(&self, place: usize) -> usize {
        match self.ends.get(place) {
            Some(end) => *end,
            None => 0,
        }
    }
}

/// No number: where there is no place, no clause or no literal.
pub const NONE: u32 = u32::MAX;

/// The number in 4 bytes; `NONE` where it has no room there.
pub fn short(number: usize) -> u32 {
    u32::try_from(number).unwrap_or(NONE)
}

/// The number at a place; 0 past the end.
pub fn number_at(numbers: &[u32], place: u32) -> u32 {
    match numbers.get(place as usize) {
        Some(number) => *number,
        None => 0,
    }
}

/// Writes a number at a place. Past the end it writes nothing.
pub fn write_at(numbers: &mut [u32], place: u32, number: u32) {
    if let Some(slot) = numbers.get_mut(place as usize) {
        *slot = number;
    }
}
