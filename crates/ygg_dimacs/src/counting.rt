//! How many clauses gates have, and their greatest variable.

ghost use Rattle.std.specs.Prelude.{◌≡◌, ◌<◌, ◌^◌, length, IfOk};
ghost use Rattle.ygg_blast.specs.ygg_gates.Clauses.{clauses_from};
ghost use Rattle.ygg_dimacs.specs.Counted.{greatest_in, greatest_of, between, Counts, IsCountOf};

use std::alloc::Global;
use ygg_blast::{Clause, Gate, Lit, clauses_of_gate};
use ygg_list::NoMemory;

/// How many clauses there are, and the greatest variable of their literals.
#[derive(Clone, Copy)]
pub struct ClauseCount {
    /// The number of clauses.
    pub clauses: u64,
    /// The greatest variable.
    pub variables: u64,
}

/// The greatest variable of a clause, or this one.
fn greatest_in(most: u64, clause: &[Lit]) -> u64
    ensures { result ≡ greatest_in most clause.now }
{
    let mut greatest = most;
    for literal in clause {
        greatest = greatest.max(literal.var);
    }
    greatest
}

/// The greatest variable of clauses, or this one.
fn greatest_of(most: u64, clauses: &[Clause]) -> u64
    ensures { result ≡ greatest_of most clauses.now }
{
    let mut greatest = most;
    for clause in clauses {
        greatest = greatest_in(greatest, clause.as_slice());
    }
    greatest
}

/// The count with clauses more. Its only error is out of memory, which stands for a number that is too large to be counted.
fn counted(total: ClauseCount, clauses: &[Clause]) -> Result<ClauseCount, NoMemory>
    ensures { IfOk result (λ c. Counts total c clauses.now) }
{
    match total.clauses.checked_add(clauses.len() as u64) {
        Some(sum) => Ok(ClauseCount {
            clauses: sum,
            variables: greatest_of(total.variables, clauses),
        }),
        None => Err(NoMemory),
    }
}

/// The count with the clauses of gates more, the first of which has the variable 2. Its only error is out of memory.
#[tactic(auto, using(crate::proofs::Gatewise::counts_begin, crate::proofs::Gatewise::counts_are))]
fn count_gates(alloc: Global, total: ClauseCount, gates: &[Gate]) -> Result<ClauseCount, NoMemory>
    requires { length gates.now < 2 ^ 63 }
    ensures { IfOk result (λ c. Counts total c (clauses_from 2 gates.now)) }
{
    let mut sum = total;
    for place in 0..gates.len() {
        let clauses = clauses_of_gate(alloc, place as u64 + 2, gates[place])?;
        sum = counted(sum, clauses.as_slice())?;
    }
    Ok(sum)
}

/// The count of the clauses of gates, between the unit clause of variable 1 and that of a goal. Its only error is out of memory.
pub fn count(alloc: Global, gates: &[Gate], goal: Lit) -> Result<ClauseCount, NoMemory>
    requires { length gates.now < 2 ^ 63 }
    ensures { IfOk result (λ c. IsCountOf c (between gates.now goal)) }
{
    let units = ClauseCount {
        clauses: 2,
        variables: 1,
    };
    let all = count_gates(alloc, units, gates)?;
    Ok(ClauseCount {
        clauses: all.clauses,
        variables: all.variables.max(goal.var),
    })
}
