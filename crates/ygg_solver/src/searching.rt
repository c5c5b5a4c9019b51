ghost use Rattle.std.specs.Prelude.{◌≡◌, ◌<◌, ◌≤◌, ◌*◌, ◌^◌, ◌⊎◌, length, All, IfOk};
ghost use Rattle.ygg_cnf_set.specs.LiteralSet.{Fits, IsSetOf};
ghost use Rattle.ygg_watch.specs.Propagation.{IsFresh, IsWithin};
ghost use Rattle.ygg_solver.specs.Kept.{IsReady};
ghost use Rattle.ygg_solver.specs.Ends.{IsEnd};

use crate::removal::{lits_of, place_of, reason_at};
use crate::run::to_conflict;
use crate::{Learned, Removal, analyze, last_decision, refute};
use std::alloc::Global;
use ygg_cnf::{Clause, Lit, Log, Step};
use ygg_cnf_set::PackedClause;
use ygg_list::{NoMemory, Sequence};
use ygg_watch::{Order, PackedEntry, Restarts, Trail};

/// How a search ended.
#[derive(Drop)]
pub enum SearchEnd {
    /// The trail assigns each variable, and satisfies every clause.
    Model,
    /// The log derives the empty clause.
    Refuted(Log),
    /// The log has as many clauses as the budget says.
    Spent(Log),
}

/// The level to go back to: the given one, or 0 where it is time to begin again.
fn level_after(restarts: &mut Restarts, level: u64) -> u64
    ensures { (result ≡ 0) ⊎ (result ≡ level) }
{
    if restarts.is_due() { 0 } else { level }
}

/// Counts the uses of variables in the clauses that the conflict was resolved with, which are the first of the chain, so many. What was resolved with
/// besides, to leave literals out, has mostly decisions in common: were it counted, the search would decide the same few variables over and over.
fn count_uses(
    order: &mut Order,
    clauses: &[PackedClause],
    chain: &[u64],
    resolved: usize,
) -> Result<(), NoMemory> {
    for id in chain.iter().take(resolved) {
        for lit in lits_of(clauses, *id) {
            order.count_use(lit.lit().var as usize)?;
        }
    }
    order.end_uses();
    Ok(())
}

/// The most literals of a learned clause whose reasons' variables are counted.
const REASON_SIDE: usize = 20;

/// Counts the other variables in the reasons of a short learned clause's literals: the values of its own literals rest on them. (In clauses of any length it
/// makes single searches many times longer.)
fn count_reasons(
    order: &mut Order,
    clauses: &[PackedClause],
    trail: &[PackedEntry],
    places: &[u32],
    learned: &[Lit],
) {
    if learned.len() > REASON_SIDE {
        return;
    }
    for known in learned {
        for lit in reason_at(clauses, trail, place_of(places, *known)) {
            let lit = lit.lit();
            if lit.var != known.var {
                order.count_reason(lit.var as usize);
            }
        }
    }
}

/// Keeps the values above the level, and puts their variables back into the order.
fn release(order: &mut Order, trail: &[PackedEntry], level: u64) -> Result<(), NoMemory> {
    for packed in trail.iter().rev() {
        let entry = packed.entry();
        if entry.level <= level {
            return Ok(());
        }
        order.keep_phase(entry.lit.var as usize, !entry.lit.negated);
        order.put(entry.lit.var as usize)?;
    }
    Ok(())
}

/// Learns clauses until each variable is assigned, the empty clause is learned, or the budget is spent. Each learned clause is added to those that the
/// propagation holds. The search ends since each turn of its loop adds a clause to the log, and each turn within one assigns a variable.
pub fn search<P: Trail>(
    alloc: Global,
    propagation: &mut P,
    order: &mut Order,
    seen: &mut [bool],
    removal: &mut Removal,
    variable_count: u64,
    budget: u32,
) -> Result<SearchEnd, NoMemory>
    requires variable_count { variable_count ≡ (P.state propagation.old).variable_count }
    requires seen { 2 * variable_count ≤ length seen.old }
    requires budget { 0 < budget }
    requires ready { IsReady (P.state propagation.old) }
    requires fits { All (All (Fits (length seen.old))) (P.state propagation.old).clauses }
    requires variables { All (IsWithin variable_count) (P.state propagation.old).clauses }
    requires clear { IsSetOf seen.old (λ _. ⊥) }
    ensures { IfOk result (IsEnd (P.state propagation.old).clauses (P.state propagation.new).trail variable_count budget) }
{
    let mut log = Log::new(alloc);
    let mut restarts = Restarts::new();
    loop {
        let Some(conflict) = to_conflict(propagation, order, variable_count) else {
            return Ok(SearchEnd::Model);
        };
        let trail = propagation.trail();
        let held = propagation.clauses();
        let Some(start) = last_decision(trail) else {
            let chain = refute(alloc, seen, held, trail, conflict)?;
            log.push(Step::Added {
                clause: Clause::new(alloc),
                chain: Sequence::from_vec(chain),
            })?;
            return Ok(SearchEnd::Refuted(log));
        };
        let Learned {
            clause,
            chain,
            level,
            ..
        } = analyze(
            alloc,
            seen,
            held,
            trail,
            start,
            conflict,
            propagation.places(),
            removal,
        )?;
        let level = level_after(&mut restarts, level);
        count_uses(order, held, chain.as_slice(), removal.resolved())?;
        count_reasons(order, held, trail, propagation.places(), clause.as_slice());
        order.end_conflict();
        release(order, trail, level)?;
        propagation.back(level);
        propagation.add(&clause)?;
        log.push(Step::Added {
            clause,
            chain: Sequence::from_vec(chain),
        })?;
        if log.len() == budget as usize {
            return Ok(SearchEnd::Spent(log));
        }
    }
}

/// Searches over a propagation that has assigned nothing. Its only error is out of memory.
pub fn search_clauses<P: Trail>(
    alloc: Global,
    propagation: &mut P,
    order: &mut Order,
    variable_count: u64,
    budget: u32,
) -> Result<SearchEnd, NoMemory>
    requires variable_count { variable_count ≡ (P.state propagation.old).variable_count }
    requires small { variable_count < 2 ^ 63 }
    requires budget { 0 < budget }
    requires fresh { IsFresh (P.state propagation.old).clauses (P.state propagation.old) }
    ensures { IfOk result (IsEnd (P.state propagation.old).clauses (P.state propagation.new).trail variable_count budget) }
{
    let mut seen = Vec::from_elem(alloc, false, 2 * variable_count as usize)?;
    let mut removal = Removal::new(alloc);
    search(
        alloc,
        propagation,
        order,
        seen.as_mut_slice(),
        &mut removal,
        variable_count,
        budget,
    )
}
