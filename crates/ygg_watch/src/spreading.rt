ghost use Rattle.std.specs.Prelude.{◌≡◌, ◌<◌, ◌^◌, ℕ, All, length};
ghost use Rattle.ygg_watch.specs.Trail.{IsQuietBefore};
ghost use Rattle.ygg_watch.specs.Propagation.{IsWithin, Spreads, IsConflict};
ghost use Rattle.ygg_watch.specs.Status.{IsScanned, state_of};

use crate::Assignments;
use crate::found::Found;
use crate::status::{ClauseStatus, status_of};
use ygg_cnf::Lit;
use ygg_cnf_set::PackedClause;

/// The first clause that is false or has a single literal left, with its number.
#[derive(Clone, Copy)]
enum Scanned {
    Quiet,
    False(u64),
    Unit(u64, Lit),
}

/// Looks at each clause until one is false or has a single literal left.
fn scan(clauses: &[PackedClause], trail: &Assignments) -> Scanned
    requires { All (IsWithin trail.now.variable_count) clauses.now }
    ensures { IsScanned clauses.now trail.now.entries.items result }
{
    for at in 0..clauses.len() {
        match status_of(clauses[at].as_slice(), trail) {
            ClauseStatus::False => {
                return Scanned::False(at as u64 + 1);
            }
            ClauseStatus::Unit(lit) => {
                return Scanned::Unit(at as u64 + 1, lit);
            }
            ClauseStatus::True(_) => {}
            ClauseStatus::Open(_, _) => {}
        }
    }
    Scanned::Quiet
}

/// Assigns implied literals, until nothing more is implied or a clause is false. It looks at every clause for each literal.
pub fn spread(clauses: &[PackedClause], trail: &mut Assignments) -> Found
    requires within { All (IsWithin trail.old.variable_count) clauses.now }
    requires few { length clauses.now < 2 ^ 32 }
    ensures spreads { Spreads (state_of clauses.now trail.old) (state_of clauses.now trail.new) }
    ensures starts { trail.new.starts.items ≡ trail.old.starts.items }
    ensures quiet { result ≡ Found.Quiet → IsQuietBefore clauses.now trail.new.entries.items (length trail.new.entries.items) }
    ensures found { (id : ℕ) → result ≡ Found.False id → IsConflict clauses.now trail.new.entries.items id }
{
    loop {
        match scan(clauses, trail) {
            Scanned::Quiet => {
                return Found::Quiet;
            }
            Scanned::False(id) => {
                return Found::False(id);
            }
            Scanned::Unit(id, lit) => {
                trail.push(lit, Some(id));
            }
        }
    }
}
