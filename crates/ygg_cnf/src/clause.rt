ghost use Rattle.std.specs.Prelude.{◌≡◌, ◌<◌, ◌↔◌, [], ◌∷◌, ◌++◌, true, length, slice_get, IsTrue, OnOk, OnErr, IfOk};
ghost use Rattle.std.specs.List.{list_any};
ghost use Rattle.ygg_cnf.specs.Literals.{is_same, once, with_literal};

use crate::lit::Lit;
use smallvec::SmallVec;
use std::alloc::Global;
use std::marker::Model;
use ygg_list::{Duplicate, NoMemory, Sequence};

/// A clause: a list of literals, which is read as a set. Order and repetition don't matter, and a clause with a literal and
/// its complement is true under every assignment. Where a clause is read or made of literals that may repeat, `once` keeps each once.
#[derive(Drop)]
pub struct Clause {
    lits: SmallVec<Lit, 3>,
}

/// Clauses in order. The first has the number 1.
pub type Clauses = Sequence<Clause>;

impl Model for Clause {
    ghost use Rattle.std.specs.Prelude.{List};
    ghost use Rattle.ygg_cnf.specs.declared.lit.Lit.{Lit};

    ghost Value = { List Lit };

    ghost view = { λ c. c.lits.items };
}

impl Clause {
    /// The empty clause. It takes no memory.
    #[inline]
    pub fn new(alloc: Global) -> Clause
        ensures { result ≡ [] }
    {
        Clause {
            lits: SmallVec::new(alloc),
        }
    }

    /// A clause of these literals. Its only error is out of memory.
    pub fn from_slice(alloc: Global, lits: &[Lit]) -> Result<Clause, NoMemory>
        ensures { IfOk result (λ clause. clause ≡ lits.now) }
    {
        Ok(Clause {
            lits: SmallVec::from_slice(alloc, lits)?,
        })
    }

    /// A clause of these literals, each of them once, in the order of their first places. Its time grows with the square of their
    /// number. Its only error is out of memory.
    pub fn once(alloc: Global, lits: &[Lit]) -> Result<Clause, NoMemory>
        ensures { IfOk result (λ clause. clause ≡ once lits.now) }
    {
        let mut clause = Clause::new(alloc);
        for lit in lits {
            clause.include(*lit)?;
        }
        Ok(clause)
    }

    /// Whether the literal is in the clause.
    #[inline]
    pub fn contains(&self, lit: Lit) -> bool
        ensures { result ≡ list_any (is_same lit) self.now }
    {
        is_among(self.as_slice(), lit)
    }

    /// Adds a literal at the end, where it isn't in the clause yet. After running out of memory the clause is as before.
    #[inline]
    pub fn include(&mut self, lit: Lit) -> Result<(), NoMemory>
        ensures ok { OnOk result (self.new ≡ with_literal self.old lit) }
        ensures err { OnErr result (self.new ≡ self.old) }
    {
        if self.contains(lit) {
            return Ok(());
        }
        self.push(lit)
    }

    /// Adds a literal at the end. After running out of memory the clause is as before.
    #[inline]
    pub fn push(&mut self, lit: Lit) -> Result<(), NoMemory>
        ensures ok { OnOk result (self.new ≡ self.old ++ lit ∷ []) }
        ensures err { OnErr result (self.new ≡ self.old) }
    {
        self.lits.push(lit)?;
        Ok(())
    }

    /// An equal clause. Its only error is out of memory.
    pub fn copy(&self, alloc: Global) -> Result<Clause, NoMemory>
        ensures { IfOk result (λ copy. copy ≡ self.now) }
    {
        Clause::from_slice(alloc, self.as_slice())
    }

    /// How many literals stand in the clause, repeated ones counted each time.
    pub fn len(&self) -> usize
        ensures { result ≡ length self.now }
    {
        self.lits.len()
    }

    /// Whether the clause has no literal. Such a clause is false under every assignment.
    pub fn is_empty(&self) -> bool
        ensures { IsTrue result ↔ (self.now ≡ []) }
    {
        self.as_slice().is_empty()
    }

    /// The literal at a place, counted from 0.
    pub fn at(&self, place: usize) -> Lit
        requires { place < length self.now }
        ensures { slice_get self.now place ≡ Some result }
    {
        self.as_slice()[place]
    }

    /// All literals in order.
    #[inline]
    pub fn as_slice(&self) -> &[Lit]
        ensures { result.now ≡ self.now }
    {
        self.lits.as_slice()
    }
}

/// Whether the literal is one of these.
#[inline]
fn is_among(lits: &[Lit], lit: Lit) -> bool
    ensures { result ≡ list_any (is_same lit) lits.now }
{
    lits.iter().any(|other| lit == *other)
}

/// Where it says yes, the clause that keeps each of these literals once is these. Its time grows with the square of their number.
#[inline]
#[tactic(auto, using(crate::proofs::Once::once_more))]
pub fn is_once(lits: &[Lit]) -> bool
    ensures { result ≡ true → once lits.now ≡ lits.now }
{
    for place in 0..lits.len() {
        if is_among(&lits[..place], lits[place]) {
            return false;
        }
    }
    true
}

impl Duplicate for Clause {
    fn duplicate(&self, alloc: Global) -> Result<Clause, NoMemory> {
        self.copy(alloc)
    }
}
