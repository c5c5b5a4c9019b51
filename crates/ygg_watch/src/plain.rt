ghost use Rattle.std.specs.Prelude.{◌≡◌, ◌≤◌, ◌^◌, [], All, IfOk, length};
ghost use Rattle.ygg_watch.specs.Propagation.{IsWithin, IsFresh};
ghost use Rattle.ygg_watch.specs.Status.{state_of};

use crate::found::{Assigned, Found};
use crate::loading::{load, variable_count_for};
use crate::propagate::{Propagate, Trail};
use crate::spreading::spread;
use crate::{Assignments, PackedEntry};
use std::alloc::Global;
use ygg_cnf::{Clause, Clauses, Lit};
use ygg_cnf_set::PackedClause;
use ygg_list::NoMemory;

/// Propagation that looks at every clause for each literal that it finds.
pub struct PlainSpread {
    clauses: Vec<PackedClause>,
    trail: Assignments,
    ghost within: { All (IsWithin trail.variable_count) clauses.items },
    ghost few: { length clauses.items ≤ 2 ^ 31 },
}

impl Drop for PlainSpread {
    fn drop(self) {
        let PlainSpread { clauses, trail } = self;
        drop(clauses);
        drop(trail);
    }
}

impl PlainSpread {
    /// No clause is held, and variables are those below `variable_count`. Its only error is out of memory.
    pub fn new(alloc: Global, variable_count: u64) -> Result<PlainSpread, NoMemory>
        ensures { IfOk result (λ p. state_of p.clauses.items p.trail ≡ record { clauses = []; trail = []; level = 0; variable_count = variable_count }) }
    {
        let trail = Assignments::new(alloc, variable_count)?;
        Ok(PlainSpread {
            clauses: Vec::new(alloc),
            trail,
        })
    }
}

/// Plain propagation that holds the clauses. Its only error is out of memory; tables are as long as the greatest variable.
pub fn plain_spread(alloc: Global, clauses: &Clauses) -> Result<PlainSpread, NoMemory>
    ensures { IfOk result (λ p. IsFresh clauses.now (state_of p.clauses.items p.trail)) }
{
    let variable_count = variable_count_for(clauses)?;
    let mut propagation = PlainSpread::new(alloc, variable_count)?;
    load(&mut propagation, clauses)?;
    Ok(propagation)
}

impl Propagate for PlainSpread {
    ghost state = { λ s. state_of s.clauses.items s.trail };

    fn add(&mut self, clause: &Clause) -> Result<(), NoMemory> {
        if self.clauses.len() == 1 << 31 {
            return Err(NoMemory);
        }
        let kept = PackedClause::of(*self.clauses.allocator(), clause.as_slice())?;
        self.clauses.push(kept)?;
        Ok(())
    }

    fn decide(&mut self, lit: Lit) {
        self.trail.decide(lit);
    }

    fn spread(&mut self) -> Found {
        spread(self.clauses.as_slice(), &mut self.trail)
    }

    fn back(&mut self, level: u64) {
        self.trail.back(level);
    }

    fn assigned(&self, var: u64) -> Option<Assigned> {
        self.trail.assigned(var)
    }
}

impl Trail for PlainSpread {
    fn clauses(&self) -> &[PackedClause] {
        self.clauses.as_slice()
    }

    fn trail(&self) -> &[PackedEntry] {
        self.trail.entries()
    }

    fn places(&self) -> &[u32] {
        self.trail.places()
    }
}
