//! Pairs of clauses that follow each other in many chains get a step of their own.

use crate::lists::{Lists, NONE, number_at, short};
use crate::pairs::{Pair, PairTable};
use crate::rebuilt::Rebuilt;
use crate::refutation::Refutation;
use std::alloc::Global;
use ygg_list::NoMemory;

/// How often all chains are gone through: a pair may be of pairs.
const ROUNDS: usize = 4;

/// How often a pair stands in chains where a step of its own is worth it, since that has to be read and judged too.
const OFTEN: u32 = 10;

/// A refutation whose chains name pairs, too: the first is numbered right behind the last step.
#[derive(Drop)]
pub struct Joined {
    pub refutation: Refutation,
    pub pairs: Vec<Pair>,
}

/// Chains with their parents.
#[derive(Drop)]
struct Chains {
    numbers: Lists,
    parents: Lists,
}

/// The refutation with pairs in its chains. Its only error is out of memory.
pub fn join_pairs(alloc: Global, made: Rebuilt) -> Result<Joined, NoMemory> {
    let Rebuilt {
        refutation: Refutation {
            given,
            clauses,
            chains,
        },
        parents,
    } = made;
    let mut joining = Joining {
        numbered: clauses.len(),
        pairs: Vec::new(alloc),
        table: PairTable::new(alloc)?,
        places: Vec::new(alloc),
    };
    let chains = joining.join_rounds(alloc, chains, parents)?;
    Ok(Joined {
        refutation: Refutation {
            given,
            clauses,
            chains,
        },
        pairs: joining.pairs,
    })
}

/// The pair that ends at a place of a chain, where the clause there crosses out what the one right before it alone brings.
fn pair_to(chain: &[u32], parents: &[u32], place: usize) -> Option<Pair> {
    let before = place.checked_sub(1)?;
    if *parents.get(place)? as usize == before {
        Some(Pair {
            first: *chain.get(before)?,
            second: *chain.get(place)?,
        })
    } else {
        None
    }
}

/// The pairs that have numbers.
#[derive(Drop)]
struct Joining {
    // how many clauses have numbers besides
    numbered: usize,
    pairs: Vec<Pair>,
    table: PairTable,
    // by place of the chain so far its place in the new one
    places: Vec<u32>,
}

impl Joining {
    /// The chains, with a number for each pair, and pair of pairs, that stands often in them.
    fn join_rounds(
        &mut self,
        alloc: Global,
        numbers: Lists,
        parents: Lists,
    ) -> Result<Lists, NoMemory> {
        let mut chains = Chains { numbers, parents };
        for _ in 0..ROUNDS {
            let before = self.pairs.len();
            chains = self.join_all(alloc, &chains)?;
            if self.pairs.len() == before {
                return Ok(chains.numbers);
            }
        }
        Ok(chains.numbers)
    }

    /// The chains, with a number for each pair that stands often in them.
    fn join_all(&mut self, alloc: Global, old: &Chains) -> Result<Chains, NoMemory> {
        self.table.clear_counts();
        for chain in 0..old.numbers.len() {
            self.count_chain(old.numbers.at(chain), old.parents.at(chain));
        }
        let mut new = Chains {
            numbers: Lists::new(alloc),
            parents: Lists::new(alloc),
        };
        for chain in 0..old.numbers.len() {
            self.join_chain(old.numbers.at(chain), old.parents.at(chain), &mut new)?;
        }
        Ok(new)
    }

    /// Adds a chain with numbers for pairs.
    fn join_chain(
        &mut self,
        chain: &[u32],
        parents: &[u32],
        new: &mut Chains,
    ) -> Result<(), NoMemory> {
        self.places.clear();
        let mut is_joined = false;
        let mut new_place: u32 = 0;
        for (place, number) in chain.iter().enumerate() {
            if is_joined {
                is_joined = false;
            } else {
                let joined = self.number_from(chain, parents, place)?;
                new.numbers.push(joined.unwrap_or(*number))?;
                new.parents.push(self.moved(parents, place))?;
                is_joined = joined.is_some();
                new_place = new_place.wrapping_add(1);
            }
            self.places.push(new_place.wrapping_sub(1))?;
        }
        new.numbers.close()?;
        new.parents.close()
    }

    /// The parent of a place of a chain, in the new chain.
    fn moved(&self, parents: &[u32], place: usize) -> u32 {
        let parent = number_at(parents, short(place));
        match self.places.get(parent as usize) {
            Some(moved) => *moved,
            None => parent,
        }
    }

    /// The number of the pair that begins at a place of a chain, if it stands often in chains.
    fn number_from(
        &mut self,
        chain: &[u32],
        parents: &[u32],
        place: usize,
    ) -> Result<Option<u32>, NoMemory> {
        let Some(pair) = pair_to(chain, parents, place.wrapping_add(1)) else {
            return Ok(None);
        };
        if !self.table.is_often(pair, OFTEN) {
            return Ok(None);
        }
        let known = self.table.number(pair);
        if known != NONE {
            return Ok(Some(known));
        }
        let number = short(self.numbered.saturating_add(self.pairs.len()));
        self.pairs.push(pair)?;
        self.table.set_number(pair, number);
        Ok(Some(number))
    }

    /// Counts the pairs of a chain.
    fn count_chain(&mut self, chain: &[u32], parents: &[u32]) {
        for place in 0..chain.len() {
            if let Some(pair) = pair_to(chain, parents, place) {
                self.table.count(pair);
            }
        }
    }
}
