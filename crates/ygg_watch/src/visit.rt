ghost use Rattle.std.specs.Prelude.{◌≡◌, ◌≢◌, ◌<◌, ◌≤◌, ℕ, length, Contains, IfSome, IfNone, List, []};
ghost use Rattle.ygg_cnf_set.specs.LiteralSet.{code_of};
ghost use Rattle.ygg_cnf.specs.Literals.{complement};
ghost use Rattle.ygg_watch.specs.Propagation.{IsWithin, IsFalse, Spreads, IsConflict};
ghost use Rattle.ygg_watch.specs.Status.{state_of};
ghost use Rattle.ygg_watch.specs.Trail.{IsAt, IsOnTrail};
ghost use Rattle.ygg_watch.specs.Lists.{IsLists, IsPending};
ghost use Rattle.ygg_watch.specs.State.{IsLive};
ghost use Rattle.ygg_watch.specs.Watching.{IsDone, IsJudged};

use crate::Assignments;
use crate::frame::Checkpoint;
use crate::links::{Links, held_clause, sibling_of};
use ygg_cnf::Lit;
use ygg_cnf_set::{PackedClause, PackedLit};

/// The first literal that is not false, other than the given one. Each one before it is counted.
fn replacement(
    clause: &[PackedLit],
    other: Lit,
    trail: &Assignments,
    count: &mut usize,
) -> Option<Lit>
    requires { IsWithin trail.now.variable_count clause.now }
    ensures some { IfSome result (λ y. Contains clause.now y × ((y ≢ other) × (IsFalse trail.now.entries.items y → ⊥))) }
    ensures none { IfNone result ((y : _) → Contains clause.now y → y ≢ other → IsFalse trail.now.entries.items y) }
{
    for lit in clause {
        let lit = lit.lit();
        if !trail.is_false(lit) && lit != other {
            return Some(lit);
        }
        *count = count.wrapping_add(1);
    }
    None
}

/// A literal of the clause that is not false, other than the given one: the first one from a place on, or else the first one before it. The place becomes
/// its own.
fn replacement_from(
    clause: &[PackedLit],
    other: Lit,
    trail: &Assignments,
    place: &mut usize,
) -> Option<Lit>
    requires { IsWithin trail.now.variable_count clause.now }
    ensures some { IfSome result (λ y. Contains clause.now y × ((y ≢ other) × (IsFalse trail.now.entries.items y → ⊥))) }
    ensures none { IfNone result ((y : _) → Contains clause.now y → y ≢ other → IsFalse trail.now.entries.items y) }
{
    if *place > clause.len() {
        *place = 0;
    }
    let (before, after) = clause.split_at(*place);
    if let Some(lit) = replacement(after, other, trail, place) {
        return Some(lit);
    }
    *place = 0;
    replacement(before, other, trail, place)
}

/// What is to be done about a clause one of whose watched literals is false.
#[derive(Clone, Copy)]
pub enum Judged {
    /// The other watched literal is true.
    Keep,
    /// This literal, which is not false, is to be watched in place of the false one.
    Move(Lit),
    /// The other watched literal is the only one that is not false.
    Imply,
    /// Each literal is false.
    False,
}

/// Looks at the clause of a number with a false watch. It is read where its other watch isn't true. Where another literal is to be watched, `place` becomes
/// its place.
fn judge(
    clause: &PackedClause,
    other: Lit,
    trail: &Assignments,
    links: &Links,
    at: usize,
    place: &mut usize,
) -> Judged
    requires within { IsWithin trail.now.variable_count clause.now }
    requires here { Contains clause.now other }
    ensures { IsJudged clause.now other trail.now.entries.items result }
{
    if trail.is_true(other) {
        return Judged::Keep;
    }
    *place = links.start(at);
    judge_read(clause.as_slice(), other, trail, place)
}

/// Looks at the literals of a clause with a false watch, from a place on.
fn judge_read(clause: &[PackedLit], other: Lit, trail: &Assignments, place: &mut usize) -> Judged
    requires within { IsWithin trail.now.variable_count clause.now }
    requires here { Contains clause.now other }
    requires unsettled { IsOnTrail trail.now.entries.items other → ⊥ }
    ensures { IsJudged clause.now other trail.now.entries.items result }
{
    match replacement_from(clause, other, trail, place) {
        Some(lit) => Judged::Move(lit),
        None => {
            if trail.is_false(other) {
                Judged::False
            } else {
                Judged::Imply
            }
        }
    }
}

/// Puts the pending nodes back into the watch list of their literal.
fn put_back(links: &mut Links, from: usize, code: usize)
    requires pending { (rest : List ℕ) × (IsPending links.old.next links.old.watched from code rest
        × IsLists links.old.next links.old.watched links.old.firsts rest) }
    requires size { length links.old.watched ≡ length links.old.next }
    requires code { code < length links.old.firsts }
    ensures lists { IsLists links.new.next links.new.watched links.new.firsts [] }
    ensures watched { links.new.watched ≡ links.old.watched }
    ensures next { length links.new.next ≡ length links.old.next }
    ensures firsts { length links.new.firsts ≡ length links.old.firsts }
{
    let mut at = from;
    while at != 0 {
        let node = at - 1;
        at = links.next(node);
        links.link(node, code);
    }
}

/// Looks at each watch of a literal that is false. Gives the number of a clause that is false, if it finds one.
fn visit(
    clauses: &[PackedClause],
    links: &mut Links,
    trail: &mut Assignments,
    frames: &[Checkpoint],
    head: usize,
    seen: usize,
    lit: Lit,
) -> Option<u64>
    requires live { IsLive clauses.now links.old.watched links.old.next links.old.firsts []
        trail.old.entries.items trail.old.variable_count frames.now head seen }
    requires entry { (e : _) × (IsAt trail.old.entries.items head e × (e.lit ≡ complement lit)) }
    ensures live { IsLive clauses.now links.new.watched links.new.next links.new.firsts []
        trail.new.entries.items trail.new.variable_count frames.now head seen }
    ensures spreads { Spreads (state_of clauses.now trail.old) (state_of clauses.now trail.new) }
    ensures starts { trail.new.starts.items ≡ trail.old.starts.items }
    ensures variable_count { trail.new.variable_count ≡ trail.old.variable_count }
    ensures done { IfNone result (IsDone links.new.watched trail.new.entries.items (code_of lit) []) }
    ensures found { IfSome result (λ id. IsConflict clauses.now trail.new.entries.items id) }
{
    let code_now = trail.code(lit);
    let mut at = links.take_first(code_now);
    while at != 0 {
        let node = at - 1;
        at = links.next(node);
        let other = links.watch(sibling_of(node));
        let mut to = code_now;
        let mut place = 0;
        match judge(
            held_clause(clauses, node / 2),
            other,
            trail,
            links,
            node / 2,
            &mut place,
        ) {
            Judged::Keep => {}
            Judged::Move(lit) => {
                links.set_watch(node, lit);
                links.set_start(node / 2, place);
                to = trail.code(lit);
            }
            Judged::Imply => {
                trail.push(other, Some((node / 2) as u64 + 1));
            }
            Judged::False => {
                links.link(node, code_now);
                put_back(links, at, code_now);
                return Some((node / 2) as u64 + 1);
            }
        }
        links.link(node, to);
    }
    None
}

/// Looks at each entry that was not looked at. Gives the number of a clause that is false, if it finds one.
pub fn visit_all(
    clauses: &[PackedClause],
    links: &mut Links,
    trail: &mut Assignments,
    frames: &[Checkpoint],
    head: &mut usize,
    seen: usize,
) -> Option<u64>
    requires live { IsLive clauses.now links.old.watched links.old.next links.old.firsts []
        trail.old.entries.items trail.old.variable_count frames.now head.old seen }
    ensures live { IsLive clauses.now links.new.watched links.new.next links.new.firsts []
        trail.new.entries.items trail.new.variable_count frames.now head.new seen }
    ensures spreads { Spreads (state_of clauses.now trail.old) (state_of clauses.now trail.new) }
    ensures starts { trail.new.starts.items ≡ trail.old.starts.items }
    ensures variable_count { trail.new.variable_count ≡ trail.old.variable_count }
    ensures done { IfNone result (length trail.new.entries.items ≤ head.new) }
    ensures found { IfSome result (λ id. IsConflict clauses.now trail.new.entries.items id) }
{
    while *head < trail.len() {
        let lit = trail.at(*head).lit.complement();
        if let Some(id) = visit(clauses, links, trail, frames, *head, seen, lit) {
            return Some(id);
        }
        *head += 1;
    }
    None
}
