use std::alloc::Global;
use ygg_list::NoMemory;

/// How much speaks for either value of a variable.
#[derive(Clone, Copy)]
struct Votes {
    yes: u64,
    no: u64,
}

impl Votes {
    /// The same votes, and more for a value.
    fn with(self, value: bool, weight: u64) -> Votes {
        Votes {
            yes: self.yes.saturating_add(if value { weight } else { 0 }),
            no: self.no.saturating_add(if value { 0 } else { weight }),
        }
    }
}

/// The initial polarity of each variable, the value that it is tried with before it was ever assigned: the one that makes more clauses true, where a
/// clause counts
/// half as much for each further literal. It is the rule of Jeroslow and Wang.
#[derive(Drop)]
pub struct InitialPolarity {
    votes: Vec<Votes>,
}

impl InitialPolarity {
    /// Variables below `variable_count`, with no vote yet. Its only error is out of memory.
    pub fn new(alloc: Global, variable_count: usize) -> Result<InitialPolarity, NoMemory> {
        Ok(InitialPolarity {
            votes: Vec::from_elem(alloc, Votes { yes: 0, no: 0 }, variable_count)?,
        })
    }

    /// A clause of this length is true where the variable has the value.
    pub fn vote(&mut self, var: usize, value: bool, length: usize) {
        let weight = 1u64 << (32 - length.min(32));
        let votes = self.votes.as_mut_slice();
        if var < votes.len() {
            votes[var] = votes[var].with(value, weight);
        }
    }

    /// Whether more speaks for 1 than for 0.
    pub fn value(&self, var: usize) -> bool {
        let votes = self.votes.as_slice();
        var < votes.len() && votes[var].yes > votes[var].no
    }
}
