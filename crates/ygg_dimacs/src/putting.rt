//! The text of a term's clauses, put piece by piece.

ghost use Rattle.std.specs.Prelude.{◌≡◌, ◌<◌, ◌≤◌, ◌^◌, ◌++◌, [], ◌∷◌, length, IfOk};
ghost use Rattle.ygg_base.specs.Outside.{Rose};
ghost use Rattle.ygg_blast.specs.ygg_bank.Nodes.{HasWidth};
ghost use Rattle.ygg_blast.specs.ygg_gates.Circuits.{literal, true_literal as one};
ghost use Rattle.ygg_blast.specs.ygg_gates.Clauses.{clauses_from, gate_clauses};
ghost use Rattle.ygg_blast.specs.ygg_gates.Groups.{translated};
ghost use Rattle.ygg_cnf.specs.Lines.{clause_line};
ghost use Rattle.ygg_dimacs.specs.Printing.{header_line, clause_lines};
ghost use Rattle.ygg_cnf.specs.Pieces.{Passes, Finishes, FinishesWith};
ghost use Rattle.ygg_dimacs.specs.Counted.{between, clauses_text, IsCountOf};

use crate::counting::{ClauseCount, count};
use crate::put_header;
use std::alloc::Global;
use ygg_base::{NoMemory, Sink, Status, Text};
use ygg_blast::{Bank, Clause, Gate, Id, Lit, circuit_of, clauses_of_gate, true_literal};
use ygg_cnf::{finish, pass, put_clause};

/// Goes on with the line of a clause.
fn pass_clause<K: Sink>(
    alloc: Global,
    sink: &mut K,
    kept: &mut Text,
    clause: &Clause,
) -> Result<(), Status>
    ensures told { Passes (K.taken sink.old) kept.old (K.taken sink.new) kept.new (clause_line clause.now)
        (Rose (K.faults sink.old) (K.faults sink.new)) result }
    ensures later { K.faults sink.old ≤ K.faults sink.new }
{
    let Ok(()) = put_clause(kept, clause) else {
        return Err(Status::NoMemory);
    };
    pass(alloc, sink, kept)
}

/// Goes on with the lines of clauses.
fn pass_clauses<K: Sink>(
    alloc: Global,
    sink: &mut K,
    kept: &mut Text,
    clauses: &[Clause],
) -> Result<(), Status>
    ensures told { Passes (K.taken sink.old) kept.old (K.taken sink.new) kept.new (clause_lines clauses.now)
        (Rose (K.faults sink.old) (K.faults sink.new)) result }
    ensures later { K.faults sink.old ≤ K.faults sink.new }
{
    for clause in clauses {
        match pass_clause(alloc, sink, kept, clause) {
            Ok(()) => {}
            Err(status) => return Err(status),
        }
    }
    Ok(())
}

/// Goes on with the lines of the clauses of a gate that has this variable.
fn pass_gate<K: Sink>(
    alloc: Global,
    sink: &mut K,
    kept: &mut Text,
    variable: u64,
    gate: Gate,
) -> Result<(), Status>
    ensures told { Passes (K.taken sink.old) kept.old (K.taken sink.new) kept.new (clause_lines (gate_clauses (literal variable) gate))
        (Rose (K.faults sink.old) (K.faults sink.new)) result }
    ensures later { K.faults sink.old ≤ K.faults sink.new }
{
    let Ok(clauses) = clauses_of_gate(alloc, variable, gate) else {
        return Err(Status::NoMemory);
    };
    pass_clauses(alloc, sink, kept, clauses.as_slice())
}

/// Goes on with the lines of the clauses of gates, the first of which has the variable 2.
fn pass_gates<K: Sink>(
    alloc: Global,
    sink: &mut K,
    kept: &mut Text,
    gates: &[Gate],
) -> Result<(), Status>
    requires { length gates.now < 2 ^ 63 }
    ensures told { Passes (K.taken sink.old) kept.old (K.taken sink.new) kept.new (clause_lines (clauses_from 2 gates.now))
        (Rose (K.faults sink.old) (K.faults sink.new)) result }
    ensures later { K.faults sink.old ≤ K.faults sink.new }
{
    for place in 0..gates.len() {
        match pass_gate(alloc, sink, kept, place as u64 + 2, gates[place]) {
            Ok(()) => {}
            Err(status) => return Err(status),
        }
    }
    Ok(())
}

/// The header of so many clauses, and the first clause, the unit clause of variable 1. Its only error is out of memory.
fn first_lines(alloc: Global, total: ClauseCount) -> Result<Text, NoMemory>
    ensures { IfOk result (λ text. text ≡ header_line total.variables total.clauses ++ clause_line (one ∷ [])) }
{
    let first = Clause::from_slice(alloc, &[true_literal()])?;
    let mut text = Text::new(alloc);
    put_header(&mut text, total.variables, total.clauses)?;
    put_clause(&mut text, &first)?;
    Ok(text)
}

/// The line of the unit clause of a literal. Its only error is out of memory.
fn unit_line(alloc: Global, literal: Lit) -> Result<Text, NoMemory>
    ensures { IfOk result (λ text. text ≡ clause_line (literal ∷ [])) }
{
    let clause = Clause::from_slice(alloc, &[literal])?;
    let mut text = Text::new(alloc);
    put_clause(&mut text, &clause)?;
    Ok(text)
}

/// Puts the text of the clauses of gates, between the unit clause of variable 1 and that of a goal, where they are so many.
fn pass_text<K: Sink>(
    alloc: Global,
    sink: &mut K,
    gates: &[Gate],
    goal: Lit,
    total: ClauseCount,
) -> Result<(), Status>
    requires few { length gates.now < 2 ^ 63 }
    requires counted { IsCountOf total (between gates.now goal) }
    ensures told { Finishes (K.taken sink.old) [] (K.taken sink.new) (clauses_text (between gates.now goal))
        (Rose (K.faults sink.old) (K.faults sink.new)) result }
    ensures later { K.faults sink.old ≤ K.faults sink.new }
{
    let Ok(mut kept) = first_lines(alloc, total) else {
        return Err(Status::NoMemory);
    };
    let Ok(last) = unit_line(alloc, goal) else {
        return Err(Status::NoMemory);
    };
    match pass_gates(alloc, sink, &mut kept, gates) {
        Ok(()) => finish(sink, &mut kept, last.as_slice()),
        Err(status) => Err(status),
    }
}

/// The same, where they are counted first.
fn put_circuit<K: Sink>(alloc: Global, sink: &mut K, gates: &[Gate], goal: Lit) -> Status
    requires few { length gates.now < 2 ^ 63 }
    ensures told { FinishesWith Status.Done (K.taken sink.old) (K.taken sink.new) (clauses_text (between gates.now goal))
        (Rose (K.faults sink.old) (K.faults sink.new)) result }
    ensures later { K.faults sink.old ≤ K.faults sink.new }
{
    let Ok(total) = count(alloc, gates, goal) else {
        return Status::NoMemory;
    };
    match pass_text(alloc, sink, gates, goal, total) {
        Ok(()) => Status::Done,
        Err(status) => status,
    }
}

/// Puts the text of a term's clauses, over the variables up to their greatest, and says with which status the command ends. Memory is for the gates of the
/// nodes that the term reaches, and for a piece of the text. The other ends are a fault of the sink and out of memory, after which a front of the text may have
/// been put.
pub fn put_term<K: Sink>(alloc: Global, bank: &Bank, term: Id, sink: &mut K) -> Status
    requires { HasWidth bank.now term 1 }
    ensures told { FinishesWith Status.Done (K.taken sink.old) (K.taken sink.new) (clauses_text (translated bank.now term).clauses)
        (Rose (K.faults sink.old) (K.faults sink.new)) result }
    ensures later { K.faults sink.old ≤ K.faults sink.new }
{
    let Ok(circuit) = circuit_of(alloc, bank, term) else {
        return Status::NoMemory;
    };
    put_circuit(alloc, sink, circuit.gates.as_slice(), circuit.goal(term))
}
