//! Refutations in lists of numbers.

use crate::lists::{Lists, NONE, number_at};
use std::alloc::Global;
use ygg_cnf::{Clause, Clauses, Lit, Log, Step};
use ygg_list::{NoMemory, Sequence};

/// Given clauses, and steps behind them with their chains. A literal is twice its variable, and 1 more where it is negated. Clauses are numbered from 0.
#[derive(Drop)]
pub struct Refutation {
    /// How many clauses are given.
    pub given: usize,
    /// The given clauses, and those of the steps.
    pub clauses: Lists,
    /// The chain of each step.
    pub chains: Lists,
}

impl Refutation {
    /// The steps of a log over clauses. Its only error is out of memory.
    pub fn of(alloc: Global, clauses: &Clauses, log: &Log) -> Result<Refutation, NoMemory> {
        let mut refutation = Refutation {
            given: clauses.len(),
            clauses: Lists::new(alloc),
            chains: Lists::new(alloc),
        };
        for clause in clauses.as_slice() {
            refutation.push_clause(clause)?;
        }
        for step in log.as_slice() {
            refutation.push_step(step)?;
        }
        Ok(refutation)
    }

    /// Adds a step.
    fn push_step(&mut self, step: &Step) -> Result<(), NoMemory> {
        let Step::Added { clause, chain } = step;
        for number in chain.as_slice() {
            self.chains.push(number_of(*number))?;
        }
        self.chains.close()?;
        self.push_clause(clause)
    }

    /// Adds a clause.
    fn push_clause(&mut self, clause: &Clause) -> Result<(), NoMemory> {
        for lit in clause.as_slice() {
            self.clauses.push(code_of(*lit))?;
        }
        self.clauses.close()
    }

    /// How many literals the variables of the given clauses have, and that of number 0.
    pub fn literal_count(&self) -> usize {
        let mut greatest: u32 = 0;
        for place in 0..self.given {
            for lit in self.clauses.at(place) {
                greatest = greatest.max(*lit);
            }
        }
        (greatest | 1) as usize + 1
    }
}

/// The number, from 0 on, of the clause that has this one from 1 on.
fn number_of(number: u64) -> u32 {
    u32::try_from(number.saturating_sub(1)).unwrap_or(NONE)
}

/// The number of a literal. One of a variable that is too large gets that of variable 0, which stands in no clause.
fn code_of(lit: Lit) -> u32 {
    match u32::try_from(lit.var) {
        Ok(var) if var < 0x7FFF_FFFF => 2 * var + lit.negated as u32,
        _ => 0,
    }
}

/// The literal of a number.
fn literal_of(code: u32) -> Lit {
    Lit {
        var: (code / 2) as u64,
        negated: code % 2 == 1,
    }
}

/// The entry of a log for a clause and its chain, whose numbers have these in the log. Its only error is out of memory.
pub fn step_of(
    alloc: Global,
    clause: &[u32],
    chain: &[u32],
    numbers: &[u32],
) -> Result<Step, NoMemory> {
    let mut literals = Clause::new(alloc);
    for lit in clause {
        literals.push(literal_of(*lit))?;
    }
    let mut named = Sequence::new(alloc);
    for number in chain {
        named.push(number_at(numbers, *number) as u64 + 1)?;
    }
    Ok(Step::Added {
        clause: literals,
        chain: named,
    })
}
