//! What is found of clauses, put piece by piece.

ghost use Rattle.std.specs.Prelude.{◌≤◌, [], ◌∷◌};
ghost use Rattle.ygg_base.specs.Outside.{Rose};
ghost use Rattle.ygg_solver.specs.ygg_cnf.Literals.{truth_of};
ghost use Rattle.ygg_cnf.specs.Lines.{literal_words};
ghost use Rattle.ygg_cnf.specs.Pieces.{Passes, Finishes, FinishesWith};
ghost use Rattle.ygg_dimacs.specs.Solved.{true_literal, true_literals, satisfiable_text, unsatisfiable_text};

use std::alloc::Global;
use ygg_base::{Sink, Status, Text};
use ygg_cnf::{finish, pass, pass_log, put_literals};
use ygg_solver::{Assignment, Lit, Step, truth};

/// Goes on with the literal of a variable that is true.
fn pass_value<K: Sink>(
    alloc: Global,
    sink: &mut K,
    kept: &mut Text,
    assignment: &Assignment,
    variable: u64,
) -> Result<(), Status>
    ensures told { Passes (K.taken sink.old) kept.old (K.taken sink.new) kept.new (literal_words (true_literal (truth_of assignment.now) variable ∷ []))
        (Rose (K.faults sink.old) (K.faults sink.new)) result }
    ensures later { K.faults sink.old ≤ K.faults sink.new }
{
    let literal = Lit {
        var: variable,
        negated: !truth(assignment, variable),
    };
    let Ok(()) = put_literals(kept, &[literal]) else {
        return Err(Status::NoMemory);
    };
    pass(alloc, sink, kept)
}

/// Goes on with the true literals of the variables from 1 to this one.
fn pass_values<K: Sink>(
    alloc: Global,
    sink: &mut K,
    kept: &mut Text,
    assignment: &Assignment,
    variables: u64,
) -> Result<(), Status>
    ensures told { Passes (K.taken sink.old) kept.old (K.taken sink.new) kept.new (literal_words (true_literals (truth_of assignment.now) variables))
        (Rose (K.faults sink.old) (K.faults sink.new)) result }
    ensures later { K.faults sink.old ≤ K.faults sink.new }
{
    for before in 0..variables {
        match pass_value(alloc, sink, kept, assignment, before + 1) {
            Ok(()) => {}
            Err(status) => return Err(status),
        }
    }
    Ok(())
}

/// Puts that clauses are satisfiable, with the true literals of so many variables.
fn pass_satisfiable<K: Sink>(
    alloc: Global,
    sink: &mut K,
    assignment: &Assignment,
    variables: u64,
) -> Result<(), Status>
    ensures told { Finishes (K.taken sink.old) [] (K.taken sink.new) (satisfiable_text (truth_of assignment.now) variables)
        (Rose (K.faults sink.old) (K.faults sink.new)) result }
    ensures later { K.faults sink.old ≤ K.faults sink.new }
{
    let Ok(mut kept) = Text::from_slice(alloc, b"satisfiable\nv ") else {
        return Err(Status::NoMemory);
    };
    match pass_values(alloc, sink, &mut kept, assignment, variables) {
        Ok(()) => finish(sink, &mut kept, b"0\n"),
        Err(status) => Err(status),
    }
}

/// Puts that clauses are unsatisfiable, with the log.
fn pass_unsatisfiable<K: Sink>(alloc: Global, sink: &mut K, log: &[Step]) -> Result<(), Status>
    ensures told { Finishes (K.taken sink.old) [] (K.taken sink.new) (unsatisfiable_text log.now) (Rose (K.faults sink.old) (K.faults sink.new)) result }
    ensures later { K.faults sink.old ≤ K.faults sink.new }
{
    let Ok(mut kept) = Text::from_slice(alloc, b"unsatisfiable\n") else {
        return Err(Status::NoMemory);
    };
    match pass_log(alloc, sink, &mut kept, log) {
        Ok(()) => finish(sink, &mut kept, b"e\n"),
        Err(status) => Err(status),
    }
}

/// Puts that clauses are satisfiable, with the true literals of so many variables, and says with which status the command ends.
pub fn put_satisfiable<K: Sink>(
    alloc: Global,
    sink: &mut K,
    assignment: &Assignment,
    variables: u64,
) -> Status
    ensures told { FinishesWith Status.Done (K.taken sink.old) (K.taken sink.new) (satisfiable_text (truth_of assignment.now) variables)
        (Rose (K.faults sink.old) (K.faults sink.new)) result }
    ensures later { K.faults sink.old ≤ K.faults sink.new }
{
    match pass_satisfiable(alloc, sink, assignment, variables) {
        Ok(()) => Status::Done,
        Err(status) => status,
    }
}

/// Puts that clauses are unsatisfiable, with the log, and says with which status the command ends.
pub fn put_unsatisfiable<K: Sink>(alloc: Global, sink: &mut K, log: &[Step]) -> Status
    ensures told { FinishesWith Status.Done (K.taken sink.old) (K.taken sink.new) (unsatisfiable_text log.now)
        (Rose (K.faults sink.old) (K.faults sink.new)) result }
    ensures later { K.faults sink.old ≤ K.faults sink.new }
{
    match pass_unsatisfiable(alloc, sink, log) {
        Ok(()) => Status::Done,
        Err(status) => status,
    }
}
