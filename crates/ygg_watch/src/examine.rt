ghost use Rattle.std.specs.Prelude.{◌≡◌, ◌≢◌, ◌<◌, ◌≤◌, ◌+◌, ◌*◌, ◌↔◌, length, All, Contains, IfSome, IsTrue, slice_get, Some, [], set};
ghost use Rattle.ygg_watch.specs.Propagation.{IsWithin, Spreads, IsConflict};
ghost use Rattle.ygg_watch.specs.Status.{state_of};
ghost use Rattle.ygg_watch.specs.Lists.{IsMember, lit_of};
ghost use Rattle.ygg_watch.specs.State.{IsLive};
ghost use Rattle.ygg_watch.specs.Watching.{IsStanding, IsWatchedAt};

use crate::frame::Checkpoint;
use crate::links::{Links, lits_of};
use crate::{Assignments, ClauseStatus, status_of};
use ygg_cnf::Lit;
use ygg_cnf_set::{PackedClause, PackedLit};

/// A literal of the clause other than the given one: one that is not false, or else the one that became so last, which
/// going back makes free first.
fn second(clause: &[PackedLit], first: Lit, trail: &Assignments) -> Option<Lit>
    requires { IsWithin trail.now.variable_count clause.now }
    ensures { IfSome result (λ y. Contains clause.now y × (y ≢ first)) }
{
    let mut best = None;
    let mut level = 0;
    for lit in clause {
        let lit = lit.lit();
        if lit != first {
            let now = match trail.entry_of(lit.var) {
                None => u64::MAX,
                Some(entry) => entry.level,
            };
            if best.is_none() || now > level {
                best = Some(lit);
                level = now;
            }
        }
    }
    best
}

/// How the look at a clause ended.
#[derive(Clone, Copy)]
pub enum Examined {
    /// The clause is watched, or has a literal that is true for as long as the clause counts as looked at.
    Fine,
    /// The clause is false.
    False,
    /// The clause is watched by two literals that serve no longer, though it has two others that would: after going back,
    /// literals were decided before it was looked at again. All clauses are looked at then.
    Stuck,
}

/// Whether a clause's watches need no look: neither is false, or one is true.
fn stands(clauses: &[PackedClause], links: &Links, trail: &Assignments, at: usize) -> bool
    requires member { IsMember clauses.now links.now.watched }
    requires size { length links.now.watched ≡ 2 * length clauses.now }
    requires at { at < length clauses.now }
    requires variables { All (IsWithin trail.now.variable_count) clauses.now }
    ensures { IsTrue result → IsStanding links.now.watched trail.now.entries.items at }
{
    if links.is_unwatched(at) {
        return false;
    }
    let first = links.watch(2 * at);
    let other = links.watch(2 * at + 1);
    if trail.is_true(first) || trail.is_true(other) {
        return true;
    }
    !trail.is_false(first) && !trail.is_false(other)
}

/// Begins to watch two literals of a clause that is not watched.
fn attach(
    clauses: &[PackedClause],
    links: &mut Links,
    trail: &Assignments,
    frames: &[Checkpoint],
    head: usize,
    seen: usize,
    first: Lit,
    other: Lit,
)
    requires live { IsLive clauses.now links.old.watched links.old.next links.old.firsts []
        trail.now.entries.items trail.now.variable_count frames.now head seen }
    requires free { lit_of links.old.watched (2 * seen) ≡ lit_of links.old.watched (2 * seen + 1) }
    requires pair { (clause : _) × ((slice_get clauses.now seen ≡ Some clause) × (Contains clause first × (Contains clause other × (first ≢ other)))) }
    ensures live { IsLive clauses.now links.new.watched links.new.next links.new.firsts []
        trail.now.entries.items trail.now.variable_count frames.now head seen }
    ensures watched { links.new.watched ≡ set (set links.old.watched (2 * seen) first) (2 * seen + 1) other }
{
    links.set_watch(2 * seen, first);
    links.set_watch(2 * seen + 1, other);
    let code_first = trail.code(first);
    let code_other = trail.code(other);
    links.link(2 * seen, code_first);
    links.link(2 * seen + 1, code_other);
}

/// Begins to watch a literal and another one of its clause, where it has one and is not watched.
fn settle(
    clauses: &[PackedClause],
    links: &mut Links,
    trail: &Assignments,
    frames: &[Checkpoint],
    head: usize,
    seen: usize,
    first: Lit,
)
    requires live { IsLive clauses.now links.old.watched links.old.next links.old.firsts []
        trail.now.entries.items trail.now.variable_count frames.now head seen }
    requires here { (clause : _) × ((slice_get clauses.now seen ≡ Some clause) × Contains clause first) }
    ensures live { IsLive clauses.now links.new.watched links.new.next links.new.firsts []
        trail.now.entries.items trail.now.variable_count frames.now head seen }
{
    if !links.is_unwatched(seen) {
        return;
    }
    if let Some(other) = second(lits_of(clauses, seen), first, trail) {
        attach(clauses, links, trail, frames, head, seen, first, other);
    }
}

/// Looks at a clause that was not looked at since a level below was gone back to.
fn examine(
    clauses: &[PackedClause],
    links: &mut Links,
    trail: &mut Assignments,
    frames: &[Checkpoint],
    head: usize,
    seen: usize,
) -> Examined
    requires live { IsLive clauses.now links.old.watched links.old.next links.old.firsts []
        trail.old.entries.items trail.old.variable_count frames.now head seen }
    requires at { seen < length clauses.now }
    ensures live { IsLive clauses.now links.new.watched links.new.next links.new.firsts []
        trail.new.entries.items trail.new.variable_count frames.now head seen }
    ensures fine { result ≡ Examined.Fine → (clause : _) → slice_get clauses.now seen ≡ Some clause →
        IsWatchedAt links.new.watched trail.new.entries.items frames.now head seen clause }
    ensures conflict { result ≡ Examined.False → IsConflict clauses.now trail.new.entries.items (seen + 1) }
    ensures spreads { Spreads (state_of clauses.now trail.old) (state_of clauses.now trail.new) }
    ensures starts { trail.new.starts.items ≡ trail.old.starts.items }
    ensures variable_count { trail.new.variable_count ≡ trail.old.variable_count }
{
    // there are fewer clauses than 4 bytes number
    let _ = links.len();
    if stands(clauses, links, trail, seen) {
        return Examined::Fine;
    }
    match status_of(lits_of(clauses, seen), trail) {
        ClauseStatus::False => Examined::False,
        ClauseStatus::True(lit) => {
            settle(clauses, links, trail, frames, head, seen, lit);
            Examined::Fine
        }
        ClauseStatus::Unit(lit) => {
            settle(clauses, links, trail, frames, head, seen, lit);
            trail.push(lit, Some(seen as u64 + 1));
            Examined::Fine
        }
        ClauseStatus::Open(lit, other) => {
            if !links.is_unwatched(seen) {
                return Examined::Stuck;
            }
            attach(clauses, links, trail, frames, head, seen, lit, other);
            Examined::Fine
        }
    }
}

/// Looks at each clause that was not looked at.
pub fn examine_all(
    clauses: &[PackedClause],
    links: &mut Links,
    trail: &mut Assignments,
    frames: &[Checkpoint],
    head: usize,
    seen: &mut usize,
) -> Examined
    requires live { IsLive clauses.now links.old.watched links.old.next links.old.firsts []
        trail.old.entries.items trail.old.variable_count frames.now head seen.old }
    requires within { seen.old ≤ length clauses.now }
    ensures live { IsLive clauses.now links.new.watched links.new.next links.new.firsts []
        trail.new.entries.items trail.new.variable_count frames.now head seen.new }
    ensures within { seen.new ≤ length clauses.now }
    ensures fine { result ≡ Examined.Fine → length clauses.now ≤ seen.new }
    ensures conflict { result ≡ Examined.False → IsConflict clauses.now trail.new.entries.items (seen.new + 1) }
    ensures spreads { Spreads (state_of clauses.now trail.old) (state_of clauses.now trail.new) }
    ensures starts { trail.new.starts.items ≡ trail.old.starts.items }
    ensures variable_count { trail.new.variable_count ≡ trail.old.variable_count }
{
    while *seen < clauses.len() {
        match examine(clauses, links, trail, frames, head, *seen) {
            Examined::Fine => {
                *seen += 1;
            }
            Examined::False => {
                return Examined::False;
            }
            Examined::Stuck => {
                return Examined::Stuck;
            }
        }
    }
    Examined::Fine
}
