ghost use Rattle.std.specs.Prelude.{◌≡◌, ◌<◌, ◌↔◌, [], All, Contains, IfOk, IsTrue, length};
ghost use Rattle.ygg_chain.specs.Places.{IsDistinct, IsPlaced, clauses_at};
ghost use Rattle.ygg_solver.specs.Answers.{IsNumbered, IsAnswer};
ghost use Rattle.ygg_solver.specs.Ends.{IsEnd};

use crate::advice::order_for;
use crate::answer::Answer;
use crate::names::{assignment_of, name_log, number_all};
use crate::searching::{SearchEnd, search_clauses};
use std::alloc::Global;
use ygg_chain::Variables;
use ygg_cnf::{Clauses, Log};
use ygg_cnf_set::PackedClause;
use ygg_list::NoMemory;
use ygg_watch::{Order, PackedEntry, Trail, Watch, Work};

/// Whether a clause is empty.
fn has_empty(clauses: &Clauses) -> bool
    ensures { IsTrue result ↔ Contains clauses.now [] }
{
    clauses.as_slice().iter().any(|clause| clause.is_empty())
}

/// Decides whether an assignment satisfies every clause, with at most `budget` learned clauses. Its memory is for the clauses
/// and the variables that occur in them, whatever their numbers are, and for an assignment up to the greatest variable that is
/// true. Its only error is out of memory.
pub fn solve(alloc: Global, clauses: &Clauses, budget: u32) -> Result<Answer, NoMemory>
    requires budget { 0 < budget }
    requires numbered { IsNumbered clauses.now }
    ensures answer { IfOk result (IsAnswer clauses.now budget) }
    ensures empty { IfOk result (λ answer. Contains clauses.now [] → answer ≡ Answer.Unsat []) }
{
    solve_counted(alloc, clauses, budget, &mut no_work())
}

/// The same, with how much the search has done.
pub fn solve_and_count(
    alloc: Global,
    clauses: &Clauses,
    budget: u32,
) -> Result<(Answer, Work), NoMemory>
    requires budget { 0 < budget }
    requires numbered { IsNumbered clauses.now }
    ensures answer { IfOk result (λ end. IsAnswer clauses.now budget end.0) }
    ensures empty { IfOk result (λ end. Contains clauses.now [] → end.0 ≡ Answer.Unsat []) }
{
    let mut work = no_work();
    let answer = solve_counted(alloc, clauses, budget, &mut work)?;
    Ok((answer, work))
}

/// What a search has done that did not begin.
fn no_work() -> Work {
    Work {
        conflicts: 0,
        values: 0,
    }
}

/// The same as `solve`, which keeps how much the search has done.
fn solve_counted(
    alloc: Global,
    clauses: &Clauses,
    budget: u32,
    work: &mut Work,
) -> Result<Answer, NoMemory>
    requires budget { 0 < budget }
    requires numbered { IsNumbered clauses.now }
    ensures answer { IfOk result (IsAnswer clauses.now budget) }
    ensures empty { IfOk result (λ answer. Contains clauses.now [] → answer ≡ Answer.Unsat []) }
{
    if has_empty(clauses) {
        return Ok(Answer::Unsat(Log::new(alloc)));
    }
    let mut variables = Variables::new(alloc);
    let kept = number_all(alloc, &mut variables, clauses)?;
    solve_kept(alloc, &variables, kept, budget, work)
}

/// The same as `solve`, where the clauses are handed over: their memory is given back before the search begins.
pub fn solve_owned(alloc: Global, clauses: Clauses, budget: u32) -> Result<Answer, NoMemory>
    requires budget { 0 < budget }
    requires numbered { IsNumbered clauses }
    ensures answer { IfOk result (IsAnswer clauses budget) }
    ensures empty { IfOk result (λ answer. Contains clauses [] → answer ≡ Answer.Unsat []) }
{
    if has_empty(&clauses) {
        return Ok(Answer::Unsat(Log::new(alloc)));
    }
    let mut variables = Variables::new(alloc);
    let kept = number_all(alloc, &mut variables, &clauses)?;
    drop(clauses);
    solve_kept(alloc, &variables, kept, budget, &mut no_work())
}

/// What `solve_counted` does with clauses whose variables are places, read by the variables that have the places.
fn solve_kept(
    alloc: Global,
    variables: &Variables,
    clauses: Vec<PackedClause>,
    budget: u32,
    work: &mut Work,
) -> Result<Answer, NoMemory>
    requires budget { 0 < budget }
    requires placed { All (All (IsPlaced variables.now)) clauses.items }
    requires numbered { IsNumbered (clauses_at variables.now clauses.items) }
    ensures { IfOk result (IsAnswer (clauses_at variables.now clauses.items) budget) }
{
    let mut order = order_for(alloc, clauses.as_slice(), variables.len())?;
    let answer = solve_numbered(alloc, variables, clauses, &mut order, budget);
    *work = order.work();
    answer
}

/// The answer alone, in this order of variables.
fn solve_numbered(
    alloc: Global,
    variables: &Variables,
    clauses: Vec<PackedClause>,
    order: &mut Order,
    budget: u32,
) -> Result<Answer, NoMemory>
    requires budget { 0 < budget }
    requires placed { All (All (IsPlaced variables.now)) clauses.items }
    requires numbered { IsNumbered (clauses_at variables.now clauses.items) }
    ensures { IfOk result (IsAnswer (clauses_at variables.now clauses.items) budget) }
{
    let variable_count = variables.len() as u64;
    let mut propagation = Watch::over(alloc, variable_count, clauses)?;
    let end = search_clauses(alloc, &mut propagation, order, variable_count, budget)?;
    answer_of(alloc, variables, end, propagation.trail(), budget)
}

/// The answer that the end of a search comes to, whatever clauses it was about.
fn answer_of(
    alloc: Global,
    variables: &Variables,
    end: SearchEnd,
    trail: &[PackedEntry],
    budget: u32,
) -> Result<Answer, NoMemory>
    requires distinct { IsDistinct variables.now }
    requires end { (clauses : _) × IsEnd clauses trail.now (length variables.now) budget end }
    ensures { IfOk result (λ answer. (clauses : _) → All (All (IsPlaced variables.now)) clauses → IsNumbered (clauses_at variables.now clauses) →
        IsEnd clauses trail.now (length variables.now) budget end → IsAnswer (clauses_at variables.now clauses) budget answer) }
{
    match end {
        SearchEnd::Model => Ok(Answer::Sat(assignment_of(alloc, variables, trail)?)),
        SearchEnd::Refuted(log) => Ok(Answer::Unsat(name_log(alloc, variables, log)?)),
        SearchEnd::Spent(log) => Ok(Answer::Spent(name_log(alloc, variables, log)?)),
    }
}
