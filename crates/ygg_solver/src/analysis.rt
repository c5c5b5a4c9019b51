ghost use Rattle.std.specs.Prelude.{◌≡◌, ◌≢◌, ◌<◌, ◌≤◌, ℕ, ◌++◌, ◌∷◌, [], length, All, Contains, OnOk, IfOk, IsSome, ◌⊎◌};
ghost use Rattle.ygg_cnf.specs.Literals.{complement};
ghost use Rattle.ygg_cnf.specs.Derivations.{HasClause, Resolves, DerivesClause};
ghost use Rattle.ygg_cnf.specs.Logs.{Teaches};
ghost use Rattle.ygg_cnf_set.specs.LiteralSet.{Fits, InSet, IsSetOf};
ghost use Rattle.ygg_watch.specs.Trail.{IsAt, IsFalseBefore, IsQuietBefore};
ghost use Rattle.ygg_solver.specs.Learning.{IsSound, IsSeenAt, ChainReaches, IsJump, IsReduced};

use crate::removal::{Removal, find};
use crate::seen_places::{entry_at, has_seen, is_seen_at, seen_below, seen_from};
use std::alloc::Global;
use ygg_cnf::Clause;
use ygg_cnf_set::{PackedClause, insert_all, remove_all, resolve};
use ygg_list::NoMemory;
use ygg_watch::PackedEntry;

/// The clause of a number, where clauses are numbered from 1.
fn clause_at(clauses: &[PackedClause], id: u64) -> &PackedClause
    requires first { 0 < id }
    requires last { id ≤ length clauses.now }
    ensures { HasClause clauses.now id result.now }
{
    &clauses[(id - 1) as usize]
}

/// Resolves the seen set with the reason of a seen place.
fn resolve_at(
    seen: &mut [bool],
    clauses: &[PackedClause],
    trail: &[PackedEntry],
    at: usize,
    id: u64,
)
    requires sound { IsSound clauses.now trail.now }
    requires fits { All (All (Fits (length seen.old))) clauses.now }
    requires is_seen { IsSeenAt seen.old trail.now at }
    requires reason { (e : _) → IsAt trail.now at e → e.reason ≡ Some id }
    requires falses { (y : _) → InSet seen.old y → IsFalseBefore trail.now (length trail.now) y }
    ensures step { (rest : _) (clause : _) → Resolves (HasClause clauses.now) (InSet seen.new) rest clause →
        Resolves (HasClause clauses.now) (InSet seen.old) (id ∷ rest) clause }
    ensures is_seen { (y : _) → InSet seen.new y → (InSet seen.old y × ((e : _) → IsAt trail.now at e → y ≢ complement e.lit))
        ⊎ IsFalseBefore trail.now at y }
    ensures kept { (y : _) → InSet seen.old y → ((e : _) → IsAt trail.now at e → y ≢ complement e.lit) → InSet seen.new y }
{
    let entry = entry_at(trail, at);
    let clause = clause_at(clauses, id);
    resolve(seen, clause.as_slice(), entry.lit.complement());
}

/// Resolves the seen set with reasons, from the end of the trail on, until just one place from `start` on is seen.
fn resolve_to_one(
    seen: &mut [bool],
    clauses: &[PackedClause],
    trail: &[PackedEntry],
    start: usize,
    chain: &mut Vec<u64>,
) -> Result<usize, NoMemory>
    requires sound { IsSound clauses.now trail.now }
    requires fits { All (All (Fits (length seen.old))) clauses.now }
    requires falses { (y : _) → InSet seen.old y → IsFalseBefore trail.now (length trail.now) y }
    requires some { (q : ℕ) × ((start ≤ q) × IsSeenAt seen.old trail.now q) }
    requires implied { (q : ℕ) (e : _) → start < q → IsAt trail.now q e → IsSome e.reason }
    requires reached { ChainReaches clauses.now seen.old chain.old.items }
    ensures found { IfOk result (λ at. (start ≤ at) × IsSeenAt seen.new trail.now at) }
    ensures alone { IfOk result (λ at. (y : _) → InSet seen.new y → ((e : _) → IsAt trail.now at e → y ≢ complement e.lit) →
        IsFalseBefore trail.now start y) }
    ensures falses { OnOk result ((y : _) → InSet seen.new y → IsFalseBefore trail.now (length trail.now) y) }
    ensures reached { OnOk result (ChainReaches clauses.now seen.new chain.new.items) }
{
    let Some(mut at) = seen_below(seen, trail, start, trail.len()) else {
        unreachable!();
    };
    while let Some(other) = seen_below(seen, trail, start, at) {
        let Some(id) = entry_at(trail, at).reason else {
            unreachable!();
        };
        chain.push(id)?;
        resolve_at(seen, clauses, trail, at, id);
        at = seen_from(seen, trail, other, at);
    }
    Ok(at)
}

/// The clause of the seen literals, whose complements are all on the trail.
fn collect(alloc: Global, seen: &[bool], trail: &[PackedEntry]) -> Result<Clause, NoMemory>
    requires falses { (y : _) → InSet seen.now y → IsFalseBefore trail.now (length trail.now) y }
    ensures { IfOk result (λ clause. IsSetOf seen.now (Contains clause)) }
{
    let mut clause = Clause::new(alloc);
    for at in 0..trail.len() {
        let lit = entry_at(trail, at).lit.complement();
        if has_seen(seen, lit) {
            clause.push(lit)?;
        }
    }
    // It is kept for long, so the room that it grew into is let go.
    Clause::from_slice(alloc, clause.as_slice())
}

/// What a conflict teaches: a clause, the chain of clause numbers that derives it, and the level at which the clause leaves
/// one literal.
#[derive(Drop)]
pub struct Learned {
    pub clause: Clause,
    pub chain: Vec<u64>,
    pub level: u64,
}

/// Begins an analysis: the chain names the conflict's clause, and its literals are in the seen set.
fn begin(
    alloc: Global,
    seen: &mut [bool],
    clauses: &[PackedClause],
    conflict: u64,
) -> Result<Vec<u64>, NoMemory>
    requires fits { All (All (Fits (length seen.old))) clauses.now }
    requires clear { IsSetOf seen.old (λ _. ⊥) }
    requires named { (clause : _) × HasClause clauses.now conflict clause }
    ensures set { OnOk result ((clause : _) → HasClause clauses.now conflict clause → IsSetOf seen.new (Contains clause)) }
    ensures reached { IfOk result (λ chain. ChainReaches clauses.now seen.new chain.items) }
{
    let mut chain = Vec::new(alloc);
    chain.push(conflict)?;
    let first = clause_at(clauses, conflict);
    insert_all(seen, first.as_slice());
    Ok(chain)
}

/// Analyses a conflict: the clause of the given number is false on the trail.
pub fn analyze(
    alloc: Global,
    seen: &mut [bool],
    clauses: &[PackedClause],
    trail: &[PackedEntry],
    start: usize,
    conflict: u64,
    places: &[u32],
    removal: &mut Removal,
) -> Result<Learned, NoMemory>
    requires sound { IsSound clauses.now trail.now }
    requires fits { All (All (Fits (length seen.old))) clauses.now }
    requires clear { IsSetOf seen.old (λ _. ⊥) }
    requires within { start ≤ length trail.now }
    requires quiet { IsQuietBefore clauses.now trail.now start }
    requires implied { (q : ℕ) (e : _) → start < q → IsAt trail.now q e → IsSome e.reason }
    requires falses { (clause : _) × (HasClause clauses.now conflict clause × ((y : _) → Contains clause y → IsFalseBefore trail.now (length trail.now) y)) }
    requires seen { (q : ℕ) (e : _) → IsAt trail.now q e → Fits (length seen.old) e.lit }
    ensures derived { IfOk result (λ learned. DerivesClause (HasClause clauses.now) learned.chain.items learned.clause) }
    ensures teaches { IfOk result (λ learned. Teaches clauses.now learned.clause) }
    ensures falses { IfOk result (λ learned. (y : _) → Contains learned.clause y → IsFalseBefore trail.now (length trail.now) y) }
    ensures jump { IfOk result (λ learned. IsJump trail.now learned.clause start learned.level) }
    ensures clear { OnOk result (IsSetOf seen.new (λ _. ⊥)) }
{
    let mut chain = begin(alloc, seen, clauses, conflict)?;
    let at = resolve_to_one(seen, clauses, trail, start, &mut chain)?;
    find(
        removal,
        seen,
        clauses,
        trail,
        places,
        start,
        chain.as_slice(),
    )?;
    minimize(seen, clauses, trail, start, at, removal, &mut chain)?;
    let clause = collect(alloc, seen, trail)?;
    let level = match seen_below(seen, trail, 0, start) {
        Some(first) => entry_at(trail, first).level,
        None => 0,
    };
    remove_all(seen, clause.as_slice());
    chain.shrink_to_fit();
    Ok(Learned {
        clause,
        chain,
        level,
    })
}

/// Resolves the seen set with reasons until nothing is seen.
fn resolve_rest(
    seen: &mut [bool],
    clauses: &[PackedClause],
    trail: &[PackedEntry],
    chain: &mut Vec<u64>,
) -> Result<(), NoMemory>
    requires sound { IsSound clauses.now trail.now }
    requires fits { All (All (Fits (length seen.old))) clauses.now }
    requires falses { (y : _) → InSet seen.old y → IsFalseBefore trail.now (length trail.now) y }
    requires implied { (q : ℕ) (e : _) → IsAt trail.now q e → IsSome e.reason }
    requires reached { ChainReaches clauses.now seen.old chain.old.items }
    ensures none { OnOk result ((y : _) → InSet seen.new y → ⊥) }
    ensures reached { OnOk result (ChainReaches clauses.now seen.new chain.new.items) }
{
    let mut end = trail.len();
    while let Some(at) = seen_below(seen, trail, 0, end) {
        let Some(id) = entry_at(trail, at).reason else {
            unreachable!();
        };
        chain.push(id)?;
        resolve_at(seen, clauses, trail, at, id);
        end = at;
    }
    Ok(())
}

/// The chain that derives the empty clause, where the clause of the given number is false and each literal is implied.
pub fn refute(
    alloc: Global,
    seen: &mut [bool],
    clauses: &[PackedClause],
    trail: &[PackedEntry],
    conflict: u64,
) -> Result<Vec<u64>, NoMemory>
    requires sound { IsSound clauses.now trail.now }
    requires fits { All (All (Fits (length seen.old))) clauses.now }
    requires clear { IsSetOf seen.old (λ _. ⊥) }
    requires implied { (q : ℕ) (e : _) → IsAt trail.now q e → IsSome e.reason }
    requires falses { (clause : _) × (HasClause clauses.now conflict clause × ((y : _) → Contains clause y → IsFalseBefore trail.now (length trail.now) y)) }
    ensures { IfOk result (λ chain. DerivesClause (HasClause clauses.now) chain.items []) }
{
    let mut chain = begin(alloc, seen, clauses, conflict)?;
    resolve_rest(seen, clauses, trail, &mut chain)?;
    chain.shrink_to_fit();
    Ok(chain)
}

/// Resolves the seen set with the reason of a seen place below `start`.
fn remove_at(
    seen: &mut [bool],
    clauses: &[PackedClause],
    trail: &[PackedEntry],
    start: usize,
    at: usize,
    place: usize,
    id: u64,
    chain: &mut Vec<u64>,
) -> Result<(), NoMemory>
    requires sound { IsSound clauses.now trail.now }
    requires fits { All (All (Fits (length seen.old))) clauses.now }
    requires below { place < start }
    requires place { IsSeenAt seen.old trail.now place }
    requires reason { (e : _) → IsAt trail.now place e → e.reason ≡ Some id }
    requires reduced { IsReduced clauses.now seen.old trail.now start at chain.old.items }
    ensures { OnOk result (IsReduced clauses.now seen.new trail.now start at chain.new.items) }
{
    chain.push(id)?;
    resolve_at(seen, clauses, trail, place, id);
    Ok(())
}

/// Takes the literals of places below `end` that have reasons out of the seen set, the last one first.
fn remove_below(
    seen: &mut [bool],
    clauses: &[PackedClause],
    trail: &[PackedEntry],
    start: usize,
    at: usize,
    end: usize,
    chain: &mut Vec<u64>,
) -> Result<(), NoMemory>
    requires sound { IsSound clauses.now trail.now }
    requires within { start ≤ length trail.now }
    requires below { end ≤ start }
    requires fits { All (All (Fits (length seen.old))) clauses.now }
    requires reduced { IsReduced clauses.now seen.old trail.now start at chain.old.items }
    ensures { OnOk result (IsReduced clauses.now seen.new trail.now start at chain.new.items) }
{
    let mut place = end;
    while place > 0 {
        place -= 1;
        if is_seen_at(seen, trail, place) {
            if let Some(id) = entry_at(trail, place).reason {
                remove_at(seen, clauses, trail, start, at, place, id, chain)?;
            }
        }
    }
    Ok(())
}

/// Takes removable literals out of the seen set, whatever places are said to be removable.
fn minimize(
    seen: &mut [bool],
    clauses: &[PackedClause],
    trail: &[PackedEntry],
    start: usize,
    at: usize,
    removal: &Removal,
    chain: &mut Vec<u64>,
) -> Result<(), NoMemory>
    requires sound { IsSound clauses.now trail.now }
    requires within { start ≤ length trail.now }
    requires fits { All (All (Fits (length seen.old))) clauses.now }
    requires reduced { IsReduced clauses.now seen.old trail.now start at chain.old.items }
    ensures { OnOk result (IsReduced clauses.now seen.new trail.now start at chain.new.items) }
{
    // Each comes before those that it hangs on, which its reason puts in.
    for place in removal.implied().iter().rev() {
        let place = *place as usize;
        if place < start && is_seen_at(seen, trail, place) {
            if let Some(id) = entry_at(trail, place).reason {
                remove_at(seen, clauses, trail, start, at, place, id, chain)?;
            }
        }
    }
    // What is left of level 0, and comes in with what is left of it, goes in the order of the trail.
    let end = removal.lowest_end();
    if end <= start {
        remove_below(seen, clauses, trail, start, at, end, chain)?;
    }
    Ok(())
}
