//! Steps whose chains know which clause brings what another one crosses out.

use crate::lists::{Lists, short};
use crate::refutation::Refutation;
use std::alloc::Global;
use ygg_list::NoMemory;

/// A refutation, and for each number of its chains the parent: the place in the chain of the one clause that brings the literal which the number's clause
/// crosses out. It is past the chain's end where there is no such clause, or more than one.
#[derive(Drop)]
pub struct Rebuilt {
    pub refutation: Refutation,
    pub parents: Lists,
}

impl Rebuilt {
    /// The given clauses of a refutation, and no steps yet. Its only error is out of memory.
    pub fn new(alloc: Global, old: &Refutation) -> Result<Rebuilt, NoMemory> {
        let mut clauses = Lists::new(alloc);
        for place in 0..old.given {
            clauses.push_list(old.clauses.at(place))?;
        }
        Ok(Rebuilt {
            refutation: Refutation {
                given: old.given,
                clauses,
                chains: Lists::new(alloc),
            },
            parents: Lists::new(alloc),
        })
    }

    /// Adds a number to the open chain.
    pub fn push(&mut self, number: u32, parent: u32) -> Result<(), NoMemory> {
        self.refutation.chains.push(number)?;
        self.parents.push(parent)
    }

    /// How many numbers the open chain has.
    pub fn chain_len(&self) -> u32 {
        short(self.refutation.chains.open_len())
    }

    /// Closes the open chain, which derives the clause, and answers the clause's number.
    pub fn close(&mut self, clause: &[u32]) -> Result<u32, NoMemory> {
        let number = short(self.refutation.clauses.len());
        self.refutation.chains.close()?;
        self.parents.close()?;
        self.refutation.clauses.push_list(clause)?;
        Ok(number)
    }
}
