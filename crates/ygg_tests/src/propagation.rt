//! The worked row of propagation, on the plain one and on that by watched literals.

ghost use Rattle.std.specs.Prelude.{◌≡◌, ℕ, ◌<◌, [], ◌∷◌, ◌++◌, All, IfOk, OnOk};
ghost use Rattle.ygg_watch.specs.Propagation.{IsWithin};

use std::alloc::Global;
use ygg_cnf::{Clause, Clauses, Lit};
use ygg_list::NoMemory;
use ygg_watch::{Found, Propagate, plain_spread, watch};

/// The literal of a variable.
fn lit(var: u64, negated: bool) -> Lit
    ensures { result ≡ record { var = var; negated = negated } }
{
    Lit { var, negated }
}

/// Adds a clause of two literals.
fn add(
    alloc: Global,
    clauses: &mut Clauses,
    one: (u64, bool),
    two: (u64, bool),
) -> Result<(), NoMemory>
    ensures { OnOk result (clauses.new ≡ clauses.old
        ++ (record { var = one.0; negated = one.1 } ∷ record { var = two.0; negated = two.1 } ∷ []) ∷ []) }
{
    let lits = [lit(one.0, one.1), lit(two.0, two.1)];
    clauses.push(Clause::from_slice(alloc, &lits)?)
}

/// The clauses `1 2`, `-1 3` and `-2 -3`.
fn three(alloc: Global) -> Result<Clauses, NoMemory>
    ensures { IfOk result (λ clauses. (variable_count : ℕ) → All (IsWithin variable_count) clauses → 3 < variable_count) }
{
    let mut clauses = Clauses::new(alloc);
    add(alloc, &mut clauses, (1, false), (2, false))?;
    add(alloc, &mut clauses, (1, true), (3, false))?;
    add(alloc, &mut clauses, (2, true), (3, true))?;
    Ok(clauses)
}

/// Whether each variable has its value for its reason.
fn have_values<P: Propagate>(propagation: &P, wanted: &[(u64, bool, u64)]) -> bool {
    let mut all = true;
    for (var, value, reason) in wanted {
        all &= propagation.assigned(*var).is_some_and(|found| found.value == *value
            && found.reason == Some(*reason));
    }
    all
}

/// Whether deciding 1 gives 3 by the second clause and -2 by the third.
fn implies<P: Propagate>(propagation: &mut P) -> bool
    requires { 3 < (P.state propagation.old).variable_count }
    ensures { 3 < (P.state propagation.new).variable_count }
{
    if propagation.assigned(1).is_some() {
        return false;
    }
    propagation.decide(lit(1, false));
    propagation.spread() == Found::Quiet && have_values(propagation, &[(3, true, 2), (2, false, 3)])
}

/// Adds the clause that a variable is false, and says whether that was done.
fn adds<P: Propagate>(alloc: Global, propagation: &mut P, var: u64) -> bool
    requires variable_count { 3 < (P.state propagation.old).variable_count }
    requires var { var < 4 }
    ensures { 3 < (P.state propagation.new).variable_count }
{
    match Clause::from_slice(alloc, &[lit(var, true)]) {
        Ok(clause) => propagation.add(&clause).is_ok(),
        Err(_) => false,
    }
}

/// Whether the worked row holds.
fn is_worked<P: Propagate>(alloc: Global, propagation: &mut P) -> bool
    requires { 3 < (P.state propagation.old).variable_count }
{
    let implied = implies(propagation);
    propagation.back(0);
    let added = adds(alloc, propagation, 3);
    let quiet = propagation.spread() == Found::Quiet;
    let follow = have_values(propagation, &[(3, false, 4), (1, false, 2), (2, true, 1)]);
    let added_too = adds(alloc, propagation, 2);
    let conflict = propagation.spread() != Found::Quiet;
    implied & added & quiet & follow & added_too & conflict
}

/// Whether it holds of the plain propagation of the clauses.
fn is_worked_plainly(alloc: Global, clauses: &Clauses) -> bool
    requires { (variable_count : ℕ) → All (IsWithin variable_count) clauses.now → 3 < variable_count }
{
    match plain_spread(alloc, clauses) {
        Ok(mut propagation) => is_worked(alloc, &mut propagation),
        Err(_) => false,
    }
}

/// Whether it holds of the watched propagation of the clauses.
fn is_worked_by_watches(alloc: Global, clauses: &Clauses) -> bool
    requires { (variable_count : ℕ) → All (IsWithin variable_count) clauses.now → 3 < variable_count }
{
    match watch(alloc, clauses) {
        Ok(mut propagation) => is_worked(alloc, &mut propagation),
        Err(_) => false,
    }
}

/// Whether it holds of both.
fn holds(alloc: Global) -> bool {
    match three(alloc) {
        Ok(clauses) => is_worked_plainly(alloc, &clauses) && is_worked_by_watches(alloc, &clauses),
        Err(_) => false,
    }
}

#[test]
fn the_worked_row(rt: HostRuntime) {
    assert!(rt; holds(rt.alloc()));
}
