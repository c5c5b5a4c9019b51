//! Numbering the variables that occur by their places, from 0 on, and the way back.

ghost use Rattle.std.specs.Prelude.{◌≡◌, ◌≢◌, ◌<◌, ◌≤◌, ℕ, List, ◌++◌, All, map, length, get_or, true, false, IfOk, OnOk};
ghost use Rattle.ygg_cnf.specs.Literals.{truth_of};
ghost use Rattle.ygg_cnf.specs.Logs.{clause_of};
ghost use Rattle.ygg_chain.specs.Places.{IsDistinct, IsPlaced, literal_at, clause_at, clauses_at};
ghost use Rattle.ygg_watch.specs.Assignments.{IsTrail};
ghost use Rattle.ygg_solver.specs.Names.{step_at, log_at, GivesValues};

use std::alloc::Global;
use ygg_chain::Variables;
use ygg_cnf::{Assignment, Clause, Clauses, Lit, Log, Step};
use ygg_cnf_set::PackedClause;
use ygg_list::NoMemory;
use ygg_watch::PackedEntry;

/// The clause with the places of its variables, after those that had none have been given one. After running out of memory, which more
/// than 2,147,483,648 variables come to, some of them may have been given one.
fn number_clause(
    alloc: Global,
    variables: &mut Variables,
    clause: &[Lit],
) -> Result<PackedClause, NoMemory>
    ensures placed { IfOk result (λ kept. All (IsPlaced variables.new) kept) }
    ensures same { IfOk result (λ kept. clause_at variables.new kept ≡ clause.now) }
    ensures grows { (more : List ℕ) × (variables.new ≡ variables.old ++ more) }
{
    let mut kept = PackedClause::with_capacity(alloc, clause.len())?;
    for lit in clause {
        kept.push(variables.enter(*lit)?)?;
    }
    Ok(kept)
}

/// The clauses with the places of their variables, after those that had none have been given one. Its only error is out of memory, which
/// more than 2,147,483,648 variables come to.
pub fn number_all(
    alloc: Global,
    variables: &mut Variables,
    clauses: &Clauses,
) -> Result<Vec<PackedClause>, NoMemory>
    ensures placed { IfOk result (λ kept. All (All (IsPlaced variables.new)) kept.items) }
    ensures same { IfOk result (λ kept. clauses_at variables.new kept.items ≡ clauses.now) }
{
    let mut kept = Vec::with_capacity(alloc, clauses.len())?;
    for clause in clauses.as_slice() {
        kept.push(number_clause(alloc, variables, clause.as_slice())?)?;
    }
    Ok(kept)
}

/// The literal of the variable that has the place.
fn name(variables: &Variables, lit: Lit) -> Lit
    requires { IsPlaced variables.now lit }
    ensures { result ≡ literal_at variables.now lit }
{
    Lit {
        var: variables.variable(lit.var as usize),
        negated: lit.negated,
    }
}

/// The clause of the variables that have its places. Its only error is out of memory.
fn name_clause(alloc: Global, variables: &Variables, clause: &[Lit]) -> Result<Clause, NoMemory>
    requires { All (IsPlaced variables.now) clause.now }
    ensures { IfOk result (λ named. named ≡ clause_at variables.now clause.now) }
{
    let mut named = Clause::new(alloc);
    for lit in clause {
        named.push(name(variables, *lit))?;
    }
    Ok(named)
}

/// The entry of the variables that have its clause's places. Its only error is out of memory.
fn name_step(alloc: Global, variables: &Variables, step: Step) -> Result<Step, NoMemory>
    requires { All (IsPlaced variables.now) (clause_of step) }
    ensures { IfOk result (λ named. named ≡ step_at variables.now step) }
{
    let Step::Added { clause, chain } = step;
    Ok(Step::Added {
        clause: name_clause(alloc, variables, clause.as_slice())?,
        chain,
    })
}

/// The log of the variables that have its places. Chains are handed on without a copy, and its only error is out of memory.
pub fn name_log(alloc: Global, variables: &Variables, log: Log) -> Result<Log, NoMemory>
    requires { All (All (IsPlaced variables.now)) (map clause_of log) }
    ensures { IfOk result (λ named. named ≡ log_at variables.now log) }
{
    let mut named = Log::new(alloc);
    for step in log.into_vec() {
        named.push(name_step(alloc, variables, step)?)?;
    }
    Ok(named)
}

/// Makes the list at least so long, with false values at the end. After running out of memory it is as before.
fn grow(values: &mut Vec<bool>, size: usize) -> Result<(), NoMemory>
    ensures ok { OnOk result (size ≤ length values.new.items) }
    ensures same { (place : ℕ) → get_or values.new.items place false ≡ get_or values.old.items place false }
{
    if values.len() < size {
        values.resize(size, false)?;
    }
    Ok(())
}

/// Makes a variable true. After running out of memory the values are as before, but for false ones past the end.
fn set_true(values: &mut Vec<bool>, variable: u64) -> Result<(), NoMemory>
    requires { 0 < variable }
    ensures here { OnOk result (truth_of values.new.items variable ≡ true) }
    ensures others { OnOk result ((v : ℕ) → v ≢ variable → truth_of values.new.items v ≡ truth_of values.old.items v) }
{
    grow(values, variable as usize)?;
    values[(variable - 1) as usize] = true;
    Ok(())
}

/// The assignment that gives each variable the value that the trail gives its place. It is as long as the greatest variable
/// that is true. Its only error is out of memory.
pub fn assignment_of(
    alloc: Global,
    variables: &Variables,
    trail: &[PackedEntry],
) -> Result<Assignment, NoMemory>
    requires distinct { IsDistinct variables.now }
    requires trail { IsTrail trail.now (length variables.now) }
    ensures { IfOk result (GivesValues variables.now trail.now) }
{
    let mut values = Vec::new(alloc);
    for entry in trail {
        let entry = entry.entry();
        let variable = variables.variable(entry.lit.var as usize);
        if variable > 0 && !entry.lit.negated {
            set_true(&mut values, variable)?;
        }
    }
    Ok(Assignment::from_vec(values))
}
