ghost use Rattle.std.specs.Prelude.{◌≡◌, ℕ, ◌≤◌, ◌⊎◌, ◌*◌, [], ◌∷◌, ◌++◌, length, map, take, List, All, Contains, IsTrue, ◌↔◌, OnOk, OnErr, IfOk};
ghost use Rattle.ygg_cnf.specs.declared.lit.Lit.{Lit};
ghost use Rattle.ygg_cnf.specs.Derivations.{HasClause, Resolves, DerivesClause};
ghost use Rattle.ygg_cnf.specs.Patterns.{IsPattern, made};
ghost use Rattle.ygg_chain.specs.Places.{StandsFor, clauses_at};
ghost use Rattle.ygg_cnf_set.specs.LiteralSet.{InSet, IsSetOf};
ghost use Rattle.ygg_chain.specs.Counts.{trues};
ghost use Rattle.ygg_chain.specs.Held.{Holds, IsKept, InSetAs, IsSetOfAs, IsNumbered, IsNamed};

use crate::counting::{insert_all, remove, resolve};
use crate::places::Variables;
use crate::store::{Store, enter_all};
use std::alloc::Global;
use std::marker::Model;
use ygg_cnf::{Clause, ClauseSink, Clauses, Lit, Pattern, is_once};
use ygg_cnf_set::{PackedLit, contains, pivot, take_all};
use ygg_list::NoMemory;

/// Holds clauses, numbered from 1, and judges chains over them. Its memory is for the clauses and for the variables that
/// occur in them, whatever their numbers are. More than 2,147,483,648 variables come to out of memory.
pub struct Checker {
    store: Store,
    seen: Vec<bool>,
    // the literals of the clause that came last, before they were held
    entered: Vec<PackedLit>,
}

impl Drop for Checker {
    fn drop(self) {
        let Checker {
            store,
            seen,
            entered,
        } = self;
        drop(store);
        drop(seen);
        drop(entered);
    }
}

impl Model for Checker {
    ghost use Rattle.std.specs.Prelude.{List};
    ghost use Rattle.ygg_cnf.specs.declared.lit.Lit.{Lit};
    ghost use Rattle.ygg_chain.specs.Places.{clauses_at};
    ghost use Rattle.ygg_chain.specs.Held.{IsReady};

    ghost Value = { List (List Lit) };

    ghost view = { λ c. clauses_at c.store.variables c.store.clauses };

    ghost invariant = { λ c. IsReady c.store.variables c.store.clauses c.seen.items };
}

impl Checker {
    /// A checker that holds these clauses. Its only error is out of memory.
    pub fn new(alloc: Global, clauses: &Clauses) -> Result<Checker, NoMemory>
        ensures { IfOk result (λ checker. checker ≡ clauses.now) }
    {
        let mut checker = Checker::empty(alloc);
        for clause in clauses.as_slice() {
            checker.add(clause)?;
        }
        Ok(checker)
    }

    /// A checker that holds no clause. It takes no memory.
    pub fn empty(alloc: Global) -> Checker
        ensures { result ≡ [] }
    {
        Checker {
            store: Store::new(alloc),
            seen: Vec::new(alloc),
            entered: Vec::new(alloc),
        }
    }

    /// How many clauses are held.
    pub fn len(&self) -> usize
        ensures { result ≡ length self.now }
    {
        self.store.clauses.len()
    }

    /// Makes the clause the next one held. After running out of memory the checker holds what it held.
    pub fn add(&mut self, clause: &Clause) -> Result<(), NoMemory>
        ensures ok { OnOk result (self.new ≡ self.old ++ clause.now ∷ []) }
        ensures err { OnErr result (self.new ≡ self.old) }
    {
        self.hold(clause.as_slice())
    }

    /// Makes the clause of these literals the next one held. After running out of memory the checker holds what it held.
    pub fn hold(&mut self, clause: &[Lit]) -> Result<(), NoMemory>
        ensures ok { OnOk result (self.new ≡ self.old ++ clause.now ∷ []) }
        ensures err { OnErr result (self.new ≡ self.old) }
    {
        enter_all(
            &mut self.seen,
            &mut self.store.variables,
            &mut self.entered,
            clause,
        )?;
        self.store.clauses.push(self.entered.as_slice())
    }

    /// Makes the clauses that patterns make of a block of literals the next ones held. After running out of memory some of them are held.
    pub fn hold_made(&mut self, block: &[Lit], patterns: &[Pattern]) -> Result<(), NoMemory>
        requires { All (IsPattern (length block.now)) patterns.now }
        ensures ok { OnOk result (self.new ≡ self.old ++ map (made block.now) patterns.now) }
        ensures some { (count : ℕ) × (self.new ≡ self.old ++ map (made block.now) (take count patterns.now)) }
    {
        enter_all(
            &mut self.seen,
            &mut self.store.variables,
            &mut self.entered,
            block,
        )?;
        self.store
            .clauses
            .push_made(self.entered.as_slice(), patterns)
    }

    /// Whether the chain derives the clause from the clauses held. It takes no memory, and its time is linear in the literals
    /// of the clause and of the clauses that the chain names.
    pub fn follows(&mut self, chain: &[u64], clause: &[Lit]) -> bool
        ensures answer { IsTrue result ↔ DerivesClause (HasClause self.old) chain.now clause.now }
        ensures same { self.new ≡ self.old }
    {
        judge(self.seen.as_mut_slice(), &self.store, chain, clause)
    }

    /// Whether an empty clause is held.
    pub fn refuted(&self) -> bool
        ensures { IsTrue result ↔ Contains self.now [] }
    {
        self.store.has_empty()
    }
}

impl ClauseSink for Checker {
    ghost held = { λ checker. checker };

    fn take(&mut self, alloc: Global, lits: &[Lit]) -> Result<(), NoMemory> {
        if is_once(lits) {
            return self.hold(lits);
        }
        let clause = Clause::once(alloc, lits)?;
        self.add(&clause)
    }

    fn take_made(
        &mut self,
        _alloc: Global,
        block: &[Lit],
        patterns: &[Pattern],
    ) -> Result<(), NoMemory> {
        self.hold_made(block, patterns)
    }
}

/// Whether the chain derives the clause from the clauses kept. The set is empty before and after.
fn judge(seen: &mut [bool], store: &Store, chain: &[u64], clause: &[Lit]) -> bool
    requires kept { IsKept store.now.variables store.now.clauses (length seen.old) }
    requires clear { IsSetOf seen.old (λ _. ⊥) }
    ensures answer { IsTrue result ↔ DerivesClause (Holds store.now.variables store.now.clauses) chain.now clause.now }
    ensures clear { IsSetOf seen.new (λ _. ⊥) }
{
    let mut count = 0;
    let resolved = resolve_chain(seen, &mut count, store, chain);
    let same = take_set(seen, &mut count, store, chain, clause);
    resolved && same
}

/// Resolves the chain's first clause with the others in turn, as far as each step has one pivot. The literals that are left
/// are then in the set.
fn resolve_chain(seen: &mut [bool], count: &mut usize, store: &Store, chain: &[u64]) -> bool
    requires kept { IsKept store.now.variables store.now.clauses (length seen.old) }
    requires clear { IsSetOf seen.old (λ _. ⊥) }
    requires counted { count.old ≡ trues seen.old }
    ensures exact { (clause : List Lit) → DerivesClause (Holds store.now.variables store.now.clauses) chain.now clause
        ↔ (IsTrue result × IsSetOfAs store.now.variables seen.new clause) }
    ensures named { (y : Lit) → InSet seen.new y → IsNamed store.now.clauses chain.now y }
    ensures counted { count.new ≡ trues seen.new }
{
    let Some((first, rest)) = chain.split_first() else {
        return false;
    };
    let Some(start) = store.numbered(*first) else {
        return false;
    };
    insert_all(seen, count, start.as_slice());
    resolve_rest(seen, count, store, rest)
}

/// Resolves the set with the clauses of the numbers in turn, as far as each step has one pivot.
fn resolve_rest(seen: &mut [bool], count: &mut usize, store: &Store, ids: &[u64]) -> bool
    requires kept { IsKept store.now.variables store.now.clauses (length seen.old) }
    requires counted { count.old ≡ trues seen.old }
    ensures exact { (clause : List Lit) → Resolves (Holds store.now.variables store.now.clauses)
        (InSetAs store.now.variables seen.old) ids.now clause ↔ (IsTrue result × IsSetOfAs store.now.variables seen.new clause) }
    ensures named { (y : Lit) → InSet seen.new y → InSet seen.old y ⊎ IsNamed store.now.clauses ids.now y }
    ensures counted { count.new ≡ trues seen.new }
{
    for id in ids {
        if !resolve_next(seen, count, store, *id) {
            return false;
        }
    }
    true
}

/// Resolves the set with the clause of the number, where it has one pivot.
fn resolve_next(seen: &mut [bool], count: &mut usize, store: &Store, id: u64) -> bool
    requires kept { IsKept store.now.variables store.now.clauses (length seen.old) }
    requires counted { count.old ≡ trues seen.old }
    ensures exact { (ids : List ℕ) (clause : List Lit) →
        Resolves (Holds store.now.variables store.now.clauses) (InSetAs store.now.variables seen.old) (id ∷ ids) clause
        ↔ (IsTrue result × Resolves (Holds store.now.variables store.now.clauses) (InSetAs store.now.variables seen.new) ids clause) }
    ensures named { (y : Lit) → InSet seen.new y → InSet seen.old y ⊎ IsNumbered store.now.clauses id y }
    ensures counted { count.new ≡ trues seen.new }
{
    let Some(next) = store.numbered(id) else {
        return false;
    };
    let next = next.as_slice();
    let Some(x) = pivot(seen, next) else {
        return false;
    };
    resolve(seen, count, next, x);
    true
}

/// Whether the literals of the set are those of the clause. It empties the set, whose literals are all of clauses that the chain
/// names.
fn take_set(
    seen: &mut [bool],
    count: &mut usize,
    store: &Store,
    chain: &[u64],
    clause: &[Lit],
) -> bool
    requires kept { IsKept store.now.variables store.now.clauses (length seen.old) }
    requires named { (y : Lit) → InSet seen.old y → IsNamed store.now.clauses chain.now y }
    requires counted { count.old ≡ trues seen.old }
    ensures answer { IsTrue result ↔ IsSetOfAs store.now.variables seen.old clause.now }
    ensures clear { IsSetOf seen.new (λ _. ⊥) }
{
    let all = all_seen_as(seen, &store.variables, clause);
    remove_all_as(seen, count, &store.variables, clause);
    let none = take_left(seen, *count, store, chain);
    all && none
}

/// Whether the literal, which is one of a variable and not of a place, is in the set.
fn is_seen_as(seen: &[bool], variables: &Variables, lit: Lit) -> bool
    requires { 2 * length variables.now ≤ length seen.now }
    ensures { IsTrue result ↔ InSetAs variables.now seen.now lit }
{
    match variables.place(lit) {
        Some(placed) => contains(seen, placed),
        None => false,
    }
}

/// Whether each literal of the clause is in the set.
fn all_seen_as(seen: &[bool], variables: &Variables, clause: &[Lit]) -> bool
    requires { 2 * length variables.now ≤ length seen.now }
    ensures { IsTrue result ↔ All (InSetAs variables.now seen.now) clause.now }
{
    for lit in clause {
        if !is_seen_as(seen, variables, *lit) {
            return false;
        }
    }
    true
}

/// Takes the literal out, if it has a place.
fn remove_as(seen: &mut [bool], count: &mut usize, variables: &Variables, lit: Lit)
    requires room { 2 * length variables.now ≤ length seen.old }
    requires counted { count.old ≡ trues seen.old }
    ensures set { IsSetOf seen.new (λ x. InSet seen.old x × (StandsFor variables.now x lit → ⊥)) }
    ensures counted { count.new ≡ trues seen.new }
{
    if let Some(placed) = variables.place(lit) {
        remove(seen, count, placed);
    }
}

/// Takes the clause's literals out.
fn remove_all_as(seen: &mut [bool], count: &mut usize, variables: &Variables, clause: &[Lit])
    requires room { 2 * length variables.now ≤ length seen.old }
    requires counted { count.old ≡ trues seen.old }
    ensures set { IsSetOf seen.new (λ x. InSet seen.old x × ((y : Lit) → Contains clause.now y → StandsFor variables.now x y → ⊥)) }
    ensures counted { count.new ≡ trues seen.new }
{
    for lit in clause {
        remove_as(seen, count, variables, *lit);
    }
}

/// Takes out all literals of the clauses that the chain names, and says whether there were none. Where the set is empty it looks at none of them.
fn take_left(seen: &mut [bool], count: usize, store: &Store, chain: &[u64]) -> bool
    requires kept { IsKept store.now.variables store.now.clauses (length seen.old) }
    requires counted { count ≡ trues seen.old }
    ensures answer { IsTrue result ↔ ((y : Lit) → InSet seen.old y → IsNamed store.now.clauses chain.now y → ⊥) }
    ensures taken { IsSetOf seen.new (λ y. InSet seen.old y × (IsNamed store.now.clauses chain.now y → ⊥)) }
{
    if count == 0 {
        return true;
    }
    take_named(seen, store, chain)
}

/// Takes out all literals of the clauses that the chain names, and says whether there were none.
fn take_named(seen: &mut [bool], store: &Store, chain: &[u64]) -> bool
    requires { IsKept store.now.variables store.now.clauses (length seen.old) }
    ensures answer { IsTrue result ↔ ((y : Lit) → InSet seen.old y → IsNamed store.now.clauses chain.now y → ⊥) }
    ensures taken { IsSetOf seen.new (λ y. InSet seen.old y × (IsNamed store.now.clauses chain.now y → ⊥)) }
{
    let mut none = true;
    for id in chain {
        none = take_numbered(seen, store, *id) && none;
    }
    none
}

/// Takes out all literals of the clause of the number, and says whether there were none.
fn take_numbered(seen: &mut [bool], store: &Store, id: u64) -> bool
    requires { IsKept store.now.variables store.now.clauses (length seen.old) }
    ensures answer { IsTrue result ↔ ((y : Lit) → InSet seen.old y → IsNumbered store.now.clauses id y → ⊥) }
    ensures taken { IsSetOf seen.new (λ y. InSet seen.old y × (IsNumbered store.now.clauses id y → ⊥)) }
{
    let Some(clause) = store.numbered(id) else {
        return true;
    };
    take_all(seen, clause.as_slice())
}
