//! Sets of literals, by the packed ones of a clause.

ghost use Rattle.std.specs.Prelude.{◌≡◌, length, All, Contains, ◌⊎◌, ◌↔◌, IsTrue, MatchOption};
ghost use Rattle.ygg_cnf.specs.declared.lit.Lit.{Lit};
ghost use Rattle.ygg_cnf.specs.Derivations.{IsPivot, Resolvent};
ghost use Rattle.ygg_cnf_set.specs.LiteralSet.{Fits, InSet, IsSetOf};

use crate::literal_set::{contains, insert, remove};
use crate::packed_lit::PackedLit;
use ygg_cnf::Lit;

/// Puts each literal of the clause in.
#[inline]
pub fn insert_all(seen: &mut [bool], clause: &[PackedLit])
    requires { All (Fits (length seen.old)) clause.now }
    ensures { IsSetOf seen.new (λ y. InSet seen.old y ⊎ Contains clause.now y) }
{
    for lit in clause {
        insert(seen, lit.lit());
    }
}

/// Takes the clause's literals out, and says whether none of them was there.
pub fn take_all(seen: &mut [bool], clause: &[PackedLit]) -> bool
    requires { All (Fits (length seen.old)) clause.now }
    ensures answer { IsTrue result ↔ ((y : Lit) → InSet seen.old y → Contains clause.now y → ⊥) }
    ensures taken { IsSetOf seen.new (λ y. InSet seen.old y × (Contains clause.now y → ⊥)) }
{
    let mut none = true;
    for lit in clause {
        let lit = lit.lit();
        if contains(seen, lit) {
            none = false;
        }
        remove(seen, lit);
    }
    none
}

/// The literal of the set whose complement is in the clause, if there is exactly one.
#[inline(always)]
pub fn pivot(seen: &[bool], clause: &[PackedLit]) -> Option<Lit>
    requires { All (Fits (length seen.now)) clause.now }
    ensures { MatchOption result ((x : _) → IsPivot (InSet seen.now) clause.now x → ⊥) (IsPivot (InSet seen.now) clause.now) }
{
    let mut found = None;
    for lit in clause {
        let lit = lit.lit();
        let other = lit.complement();
        if contains(seen, other) {
            match found {
                None => {
                    found = Some(other);
                }
                Some(first) => {
                    if other != first {
                        return None;
                    }
                }
            }
        }
    }
    found
}

/// Resolves the set with the clause on the pivot.
#[inline]
pub fn resolve(seen: &mut [bool], clause: &[PackedLit], pivot: Lit)
    requires fits { All (Fits (length seen.old)) clause.now }
    requires pivot { Fits (length seen.old) pivot }
    ensures { IsSetOf seen.new (Resolvent (InSet seen.old) clause.now pivot) }
{
    remove(seen, pivot);
    let left_out = pivot.complement();
    for lit in clause {
        let lit = lit.lit();
        if lit != left_out {
            insert(seen, lit);
        }
    }
}
