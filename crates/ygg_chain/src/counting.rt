//! A set of literals with their number, by which an empty set is known without a look at the literals that were in it.

ghost use Rattle.std.specs.Prelude.{◌≡◌, ◌≢◌, length, All, Contains, ◌⊎◌};
ghost use Rattle.ygg_cnf.specs.Derivations.{Resolvent};
ghost use Rattle.ygg_cnf_set.specs.LiteralSet.{Fits, InSet, IsSetOf};
ghost use Rattle.ygg_chain.specs.Counts.{trues};

use ygg_cnf::Lit;
use ygg_cnf_set::{PackedLit, code};

/// Puts the literal in.
#[inline(always)]
fn insert(seen: &mut [bool], count: &mut usize, lit: Lit)
    requires fits { Fits (length seen.old) lit }
    requires counted { count.old ≡ trues seen.old }
    ensures set { IsSetOf seen.new (λ y. InSet seen.old y ⊎ (y ≡ lit)) }
    ensures counted { count.new ≡ trues seen.new }
{
    let place = code(lit);
    if !seen[place] {
        seen[place] = true;
        *count += 1;
    }
}

/// Takes the literal out.
#[inline(always)]
pub fn remove(seen: &mut [bool], count: &mut usize, lit: Lit)
    requires fits { Fits (length seen.old) lit }
    requires counted { count.old ≡ trues seen.old }
    ensures set { IsSetOf seen.new (λ y. InSet seen.old y × (y ≢ lit)) }
    ensures counted { count.new ≡ trues seen.new }
{
    let place = code(lit);
    if seen[place] {
        seen[place] = false;
        *count -= 1;
    }
}

/// Puts each literal of the clause in.
#[inline(always)]
pub fn insert_all(seen: &mut [bool], count: &mut usize, clause: &[PackedLit])
    requires fits { All (Fits (length seen.old)) clause.now }
    requires counted { count.old ≡ trues seen.old }
    ensures set { IsSetOf seen.new (λ y. InSet seen.old y ⊎ Contains clause.now y) }
    ensures counted { count.new ≡ trues seen.new }
{
    for lit in clause {
        insert(seen, count, lit.lit());
    }
}

/// Resolves the set with the clause on the pivot.
#[inline(always)]
pub fn resolve(seen: &mut [bool], count: &mut usize, clause: &[PackedLit], pivot: Lit)
    requires fits { All (Fits (length seen.old)) clause.now }
    requires pivot { Fits (length seen.old) pivot }
    requires counted { count.old ≡ trues seen.old }
    ensures set { IsSetOf seen.new (Resolvent (InSet seen.old) clause.now pivot) }
    ensures counted { count.new ≡ trues seen.new }
{
    remove(seen, count, pivot);
    let left_out = pivot.complement();
    for lit in clause {
        let lit = lit.lit();
        if lit != left_out {
            insert(seen, count, lit);
        }
    }
}
