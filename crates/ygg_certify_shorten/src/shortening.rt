//! The shorter log, and that it refutes.

ghost use Rattle.std.specs.Prelude.{◌≡◌, ◌≤◌, ◌++◌, ◌∷◌, [], IsTrue, IfOk, length};
ghost use Rattle.ygg_cnf.specs.Derivations.{DerivesClause, HasClause};
ghost use Rattle.ygg_cnf.specs.Logs.{Refutes, chain_of, clause_of};

use crate::joining::join_pairs;
use crate::rebuilding::rebuild;
use crate::rebuilt::Rebuilt;
use crate::refutation::Refutation;
use crate::writing::write;
use std::alloc::Global;
use ygg_chain::Checker;
use ygg_cnf::{Clauses, Log, Step};
use ygg_list::NoMemory;

/// A log by shorter chains that refutes the same clauses, with at most `budget` steps; else the log itself. Its only error is out of memory.
pub fn shorten(alloc: Global, clauses: &Clauses, log: Log, budget: u32) -> Result<Log, NoMemory>
    requires refutes { Refutes clauses.now log }
    requires budget { length log ≤ budget }
    ensures refutes { IfOk result (Refutes clauses.now) }
    ensures budget { IfOk result (λ shorter. length shorter ≤ budget) }
{
    let shorter = shorter_of(alloc, clauses, &log)?;
    if shorter.len() <= budget as usize && refutes(alloc, clauses, shorter.as_slice())? {
        Ok(shorter)
    } else {
        Ok(log)
    }
}

/// A log that is to refute the same clauses. Nothing is promised of it: it is judged.
fn shorter_of(alloc: Global, clauses: &Clauses, log: &Log) -> Result<Log, NoMemory> {
    let made = rebuilt_of(alloc, clauses, log)?;
    write(alloc, &join_pairs(alloc, made)?)
}

/// The steps of a log derived again. What was read of the log is let go then.
fn rebuilt_of(alloc: Global, clauses: &Clauses, log: &Log) -> Result<Rebuilt, NoMemory> {
    let old = Refutation::of(alloc, clauses, log)?;
    rebuild(alloc, &old)
}

/// Whether the log refutes the clauses, its last clause being empty. Its only error is out of memory.
fn refutes(alloc: Global, clauses: &Clauses, log: &[Step]) -> Result<bool, NoMemory>
    ensures { IfOk result (λ yes. IsTrue yes → Refutes clauses.now log.now) }
{
    let mut checker = Checker::new(alloc, clauses)?;
    let mut is_empty = false;
    for step in log {
        if !adds(&mut checker, step)? {
            return Ok(false);
        }
        is_empty = adds_empty(step);
    }
    Ok(is_empty)
}

/// Whether the step's chain derives its clause, which is held then. Its only error is out of memory.
fn adds(checker: &mut Checker, step: &Step) -> Result<bool, NoMemory>
    ensures derives { IfOk result (λ yes. IsTrue yes → DerivesClause (HasClause checker.old) (chain_of step.now) (clause_of step.now)) }
    ensures held { IfOk result (λ yes. IsTrue yes → checker.new ≡ checker.old ++ clause_of step.now ∷ []) }
{
    let Step::Added { clause, chain } = step;
    if !checker.follows(chain.as_slice(), clause.as_slice()) {
        return Ok(false);
    }
    checker.add(clause)?;
    Ok(true)
}

/// Whether the step's clause is empty.
fn adds_empty(step: &Step) -> bool
    ensures { IsTrue result → clause_of step.now ≡ [] }
{
    let Step::Added { clause, .. } = step;
    clause.is_empty()
}
