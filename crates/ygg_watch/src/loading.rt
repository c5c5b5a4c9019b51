ghost use Rattle.std.specs.Prelude.{◌≡◌, ◌≤◌, [], All, IfOk, OnOk};
ghost use Rattle.ygg_watch.specs.Propagation.{IsWithin, IsFresh};

use crate::propagate::Propagate;
use ygg_cnf::{Clauses, Lit};
use ygg_list::NoMemory;

/// The greatest variable of a clause, or the given one where that is greater.
fn greatest(clause: &[Lit], least: u64) -> u64
    ensures least { least ≤ result }
    ensures within { All (λ x. x.var ≤ result) clause.now }
{
    let mut top = least;
    for lit in clause {
        if lit.var > top {
            top = lit.var;
        }
    }
    top
}

/// The greatest variable of the clauses, or 0.
fn greatest_of_all(clauses: &Clauses) -> u64
    ensures { All (λ clause. All (λ x. x.var ≤ result) clause) clauses.now }
{
    let mut top = 0;
    for clause in clauses.as_slice() {
        top = greatest(clause.as_slice(), top);
    }
    top
}

/// A number that the variables of the clauses are below. Its only error is out of memory, since tables by variable cannot be
/// as long as the greatest numbers.
pub fn variable_count_for(clauses: &Clauses) -> Result<u64, NoMemory>
    ensures { IfOk result (λ variable_count. All (IsWithin variable_count) clauses.now) }
{
    let top = greatest_of_all(clauses);
    if top == u64::MAX {
        return Err(NoMemory);
    }
    Ok(top + 1)
}

/// Adds each clause to a propagation that holds none. After running out of memory it holds some of them.
pub fn load<P: Propagate>(propagation: &mut P, clauses: &Clauses) -> Result<(), NoMemory>
    requires fresh { IsFresh [] (P.state propagation.old) }
    requires within { All (IsWithin (P.state propagation.old).variable_count) clauses.now }
    ensures fresh { OnOk result (IsFresh clauses.now (P.state propagation.new)) }
    ensures variable_count { OnOk result ((P.state propagation.new).variable_count ≡ (P.state propagation.old).variable_count) }
{
    for clause in clauses.as_slice() {
        propagation.add(clause)?;
    }
    Ok(())
}
