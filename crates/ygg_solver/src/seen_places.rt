//! Reading the trail, and the places of it that are seen.

ghost use Rattle.std.specs.Prelude.{◌≡◌, ◌<◌, ◌≤◌, ℕ, length, IsTrue, ◌↔◌, MatchOption, IsSome};
ghost use Rattle.ygg_cnf_set.specs.LiteralSet.{InSet};
ghost use Rattle.ygg_watch.specs.Trail.{IsAt};
ghost use Rattle.ygg_solver.specs.Learning.{IsSeenAt, IsLastSeen, IsLastDecision};

use ygg_cnf::Lit;
use ygg_watch::{Entry, PackedEntry};

/// Whether the literal is seen. One that has no place in the set is not.
pub fn has_seen(seen: &[bool], lit: Lit) -> bool
    ensures { IsTrue result ↔ InSet seen.now lit }
{
    if lit.var >= (seen.len() / 2 + seen.len() % 2) as u64 {
        return false;
    }
    match seen.get(2 * lit.var as usize + lit.negated as usize) {
        Some(insert) => *insert,
        None => false,
    }
}

/// The entry of a place of the trail.
pub fn entry_at(trail: &[PackedEntry], at: usize) -> Entry
    requires { at < length trail.now }
    ensures { IsAt trail.now at result }
{
    trail[at].entry()
}

/// Whether the complement of the literal of a place is seen.
pub fn is_seen_at(seen: &[bool], trail: &[PackedEntry], at: usize) -> bool
    requires { at < length trail.now }
    ensures { IsTrue result ↔ IsSeenAt seen.now trail.now at }
{
    let entry = entry_at(trail, at);
    has_seen(seen, entry.lit.complement())
}

/// The last place below `end` that is seen, where the place `low` is.
pub fn seen_from(seen: &[bool], trail: &[PackedEntry], low: usize, end: usize) -> usize
    requires is_seen { IsSeenAt seen.now trail.now low }
    requires order { low < end }
    requires within { end ≤ length trail.now }
    ensures low { low ≤ result }
    ensures below { result < end }
    ensures is_seen { IsSeenAt seen.now trail.now result }
    ensures last { (q : ℕ) → result < q → q < end → IsSeenAt seen.now trail.now q → ⊥ }
{
    let mut at = end - 1;
    while at > low {
        if is_seen_at(seen, trail, at) {
            return at;
        }
        at -= 1;
    }
    at
}

/// The last place from `start` on and below `end` that is seen.
pub fn seen_below(seen: &[bool], trail: &[PackedEntry], start: usize, end: usize) -> Option<usize>
    requires within { end ≤ length trail.now }
    ensures { MatchOption result ((q : ℕ) → start ≤ q → q < end → IsSeenAt seen.now trail.now q → ⊥) (λ at. IsLastSeen seen.now trail.now start end at) }
{
    let mut at = end;
    while at > start {
        at -= 1;
        if is_seen_at(seen, trail, at) {
            return Some(at);
        }
    }
    None
}

/// The place of the last decision, if there is one.
pub fn last_decision(trail: &[PackedEntry]) -> Option<usize>
    ensures { MatchOption result ((q : ℕ) (e : _) → IsAt trail.now q e → IsSome e.reason) (IsLastDecision trail.now) }
{
    let mut at = trail.len();
    while at > 0 {
        at -= 1;
        if entry_at(trail, at).reason.is_none() {
            return Some(at);
        }
    }
    None
}
