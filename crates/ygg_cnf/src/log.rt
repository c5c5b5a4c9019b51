use crate::clause::Clause;
use std::alloc::Global;
use ygg_list::{Duplicate, NoMemory, Sequence};

/// An entry of a log.
#[derive(Drop)]
pub enum Step {
    /// A clause, and the numbers, counted from 1, of the clauses that it is derived from, in the order of the steps. It takes the
    /// number after all clauses before it.
    Added {
        clause: Clause,
        chain: Sequence<u64>,
    },
}

/// Derived clauses in order, numbered on from the clauses that they are derived from.
pub type Log = Sequence<Step>;

impl Duplicate for Step {
    fn duplicate(&self, alloc: Global) -> Result<Step, NoMemory> {
        let Step::Added { clause, chain } = self;
        Ok(Step::Added {
            clause: clause.copy(alloc)?,
            chain: chain.copy(alloc)?,
        })
    }
}
