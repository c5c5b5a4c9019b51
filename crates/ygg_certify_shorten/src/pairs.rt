//! Pairs of clauses that follow each other in chains: how often, and under which number.

use crate::lists::NONE;
use std::alloc::Global;
use ygg_list::NoMemory;

/// The numbers of two clauses that follow each other in a chain, of which the second crosses out a literal that the first brings.
#[derive(Clone, Copy, PartialEq, Eq)]
pub struct Pair {
    pub first: u32,
    pub second: u32,
}

/// How many places there are for counts, and how many for numbers.
const COUNTS: u32 = 262_144;

const NUMBERS: u32 = 65_536;

/// A pair that has a number.
#[derive(Clone, Copy)]
struct Numbered {
    pair: Pair,
    number: u32,
}

/// Pairs by a place that each has, which it may share with others. So a count is that of all pairs of the place, and a pair whose number another one has
/// taken over gets a new one: some steps are made that aren't worth it, and nothing is looked for twice.
pub struct PairTable {
    // by place how often its pairs were counted
    counts: Vec<u32>,
    // by place the pair that got a number last
    numbered: Vec<Numbered>,
}

impl Drop for PairTable {
    fn drop(self) {
        let PairTable { counts, numbered } = self;
        drop(counts);
        drop(numbered);
    }
}

/// A number drawn from a pair.
fn mixed(pair: Pair) -> u32 {
    let mixed = pair.first.wrapping_mul(0x9E37_79B1) ^ pair.second.wrapping_mul(0x85EB_CA77);
    mixed ^ mixed / 0x1_0000
}

/// The place of a pair's count.
fn count_place(pair: Pair) -> usize {
    (mixed(pair) % COUNTS) as usize
}

/// The place of a pair's number.
fn number_place(pair: Pair) -> usize {
    (mixed(pair) % NUMBERS) as usize
}

impl PairTable {
    /// A table in which nothing was counted. Its only error is out of memory.
    pub fn new(alloc: Global) -> Result<PairTable, NoMemory> {
        let nothing = Numbered {
            pair: Pair {
                first: NONE,
                second: NONE,
            },
            number: NONE,
        };
        Ok(PairTable {
            counts: Vec::from_elem(alloc, 0, COUNTS as usize)?,
            numbered: Vec::from_elem(alloc, nothing, NUMBERS as usize)?,
        })
    }

    /// Counts a pair once more.
    pub fn count(&mut self, pair: Pair) {
        if let Some(count) = self.counts.get_mut(count_place(pair)) {
            *count = count.saturating_add(1);
        }
    }

    /// Whether pairs of this one's place were counted so often.
    pub fn is_often(&self, pair: Pair, often: u32) -> bool {
        match self.counts.get(count_place(pair)) {
            Some(count) => *count >= often,
            None => false,
        }
    }

    /// Forgets all counts.
    pub fn clear_counts(&mut self) {
        self.counts.as_mut_slice().fill(0);
    }

    /// The number of a pair; `NONE` where it has none.
    pub fn number(&self, pair: Pair) -> u32 {
        match self.numbered.get(number_place(pair)) {
            Some(known) if known.pair == pair => known.number,
            _ => NONE,
        }
    }

    /// Gives a pair a number.
    pub fn set_number(&mut self, pair: Pair, number: u32) {
        if let Some(known) = self.numbered.get_mut(number_place(pair)) {
            *known = Numbered { pair, number };
        }
    }
}
