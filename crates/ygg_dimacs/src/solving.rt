//! Clauses solved within a budget.

ghost use Rattle.std.specs.Prelude.{◌<◌, ◌≤◌};
ghost use Rattle.ygg_base.specs.Outside.{Rose};
ghost use Rattle.ygg_report.specs.Putting.{Puts, IsCutOf};
ghost use Rattle.ygg_solver.specs.Answers.{IsNumbered};
ghost use Rattle.ygg_dimacs.specs.Solved.{Solved};
ghost use Rattle.ygg_cnf.specs.Pieces.{FinishesWith};
ghost use Rattle.ygg_report.specs.Lines.{undecided_line};

use crate::Cnf;
use crate::pieces::{put_satisfiable, put_unsatisfiable};
use std::alloc::Global;
use ygg_base::{Sink, Status};
use ygg_report::{put_all, undecided};
use ygg_solver::{Answer, solve_owned};

/// Puts that the budget was spent, and says with which status the command ends.
fn put_undecided<K: Sink>(alloc: Global, sink: &mut K) -> Status
    ensures told { FinishesWith Status.Undecided (K.taken sink.old) (K.taken sink.new) undecided_line (Rose (K.faults sink.old) (K.faults sink.new)) result }
    ensures later { K.faults sink.old ≤ K.faults sink.new }
{
    match undecided(alloc) {
        Ok(text) => put_all(sink, text.as_slice(), Status::Undecided),
        Err(_) => Status::NoMemory,
    }
}

/// Solves clauses within a budget of learned clauses, and puts what comes of it: `satisfiable` and the true literal of each variable, or `unsatisfiable` and
/// the log that refutes the clauses, with status 0; or `undecided` with status 3, where the whole budget was spent. Long texts are put piece by piece. The
/// other ends are a fault of the sink and out of memory, after which a front of such a text may have been put. The memory of the clauses
/// that are handed over is
/// given back before the search begins.
pub fn solve_cnf<K: Sink>(alloc: Global, cnf: Cnf, budget: u32, sink: &mut K) -> Status
    requires budget { 0 < budget }
    requires numbered { IsNumbered cnf.clauses }
    ensures told { Puts (Solved cnf budget) (IsCutOf (Solved cnf budget)) (K.taken sink.old) (K.taken sink.new)
        (Rose (K.faults sink.old) (K.faults sink.new)) result }
    ensures later { K.faults sink.old ≤ K.faults sink.new }
{
    let Cnf { variables, clauses } = cnf;
    let Ok(answer) = solve_owned(alloc, clauses, budget) else {
        return Status::NoMemory;
    };
    match answer {
        Answer::Sat(assignment) => put_satisfiable(alloc, sink, &assignment, variables),
        Answer::Unsat(log) => put_unsatisfiable(alloc, sink, log.as_slice()),
        Answer::Spent(_) => put_undecided(alloc, sink),
    }
}
