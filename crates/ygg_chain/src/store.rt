//! Clauses kept with the places of their variables, in literals of 4 bytes.

ghost use Rattle.std.specs.Prelude.{◌≡◌, ℕ, ◌≤◌, ◌<◌, ◌*◌, ◌^◌, List, [], ◌++◌, length, All, Contains, IsTrue, ◌↔◌, MatchOption, IfOk, OnOk};
ghost use Rattle.ygg_cnf.specs.declared.lit.Lit.{Lit};
ghost use Rattle.ygg_cnf.specs.Derivations.{HasClause};
ghost use Rattle.ygg_chain.specs.Arena.{lits_of};
ghost use Rattle.ygg_chain.specs.Places.{IsDistinct, IsPlaced, StandsFor, clause_at};
ghost use Rattle.ygg_cnf_set.specs.LiteralSet.{InSet, IsSetOf};

use crate::arena::{ArenaClause, ClauseArena};
use crate::places::Variables;
use std::alloc::Global;
use ygg_cnf::Lit;
use ygg_cnf_set::{PackedLit, make_room};
use ygg_list::NoMemory;

/// Clauses in which each variable is replaced by its place among the variables, so that a set of literals is a table by place and no
/// look-up is made while chains are followed.
pub struct Store {
    pub variables: Variables,
    pub clauses: ClauseArena,
}

impl Drop for Store {
    fn drop(self) {
        let Store { variables, clauses } = self;
        drop(variables);
        drop(clauses);
    }
}

impl Store {
    /// No clauses and no variables. It takes no memory.
    pub fn new(alloc: Global) -> Store
        ensures clauses { result.clauses ≡ [] }
        ensures variables { result.variables ≡ [] }
    {
        Store {
            variables: Variables::new(alloc),
            clauses: ClauseArena::new(alloc),
        }
    }

    /// The kept clause of a number, where clauses are numbered from 1.
    #[inline(always)]
    pub fn numbered(&self, id: u64) -> Option<ArenaClause<'_>>
        ensures { MatchOption result ((kept : List Lit) → HasClause self.now.clauses id kept → ⊥) (λ kept. HasClause self.now.clauses id (lits_of kept)) }
    {
        if id == 0 {
            return None;
        }
        self.clauses.get((id - 1) as usize)
    }

    /// Whether an empty clause is kept.
    pub fn has_empty(&self) -> bool
        ensures { IsTrue result ↔ Contains self.now.clauses [] }
    {
        self.clauses.has_empty()
    }
}

/// Makes the list the clause with the places of its variables, after those that had none have been given one, and the set its two truth values.
/// After want of memory, which more than 2,147,483,648 variables come to, some of them may have been given one.
#[inline]
pub fn enter_all(
    seen: &mut Vec<bool>,
    variables: &mut Variables,
    entered: &mut Vec<PackedLit>,
    clause: &[Lit],
) -> Result<(), NoMemory>
    requires distinct { IsDistinct variables.old }
    requires room { 2 * length variables.old ≤ length seen.old.items }
    ensures placed { OnOk result (All (IsPlaced variables.new) entered.new.items) }
    ensures same { OnOk result (clause_at variables.new entered.new.items ≡ clause.now) }
    ensures grows { (more : List ℕ) × (variables.new ≡ variables.old ++ more) }
    ensures distinct { IsDistinct variables.new }
    ensures room { 2 * length variables.new ≤ length seen.new.items }
    ensures seen { IsSetOf seen.new.items (InSet seen.old.items) }
{
    entered.clear();
    for lit in clause {
        let placed = enter(seen, variables, *lit)?;
        entered.push(PackedLit::of(placed))?;
    }
    Ok(())
}

/// The literal with its variable's place, after the variable has been given one, and the set its two truth values, where it had none.
#[inline(always)]
fn enter(seen: &mut Vec<bool>, variables: &mut Variables, lit: Lit) -> Result<Lit, NoMemory>
    requires distinct { IsDistinct variables.old }
    requires room { 2 * length variables.old ≤ length seen.old.items }
    ensures ok { IfOk result (λ placed. StandsFor variables.new placed lit) }
    ensures small { IfOk result (λ placed. placed.var < 2 ^ 31) }
    ensures grows { (more : List ℕ) × (variables.new ≡ variables.old ++ more) }
    ensures distinct { IsDistinct variables.new }
    ensures room { 2 * length variables.new ≤ length seen.new.items }
    ensures seen { IsSetOf seen.new.items (InSet seen.old.items) }
{
    // The room comes first, so that it is there for each variable whatever fails.
    make_room(seen, 2 * variables.len() + 2)?;
    variables.enter(lit)
}
