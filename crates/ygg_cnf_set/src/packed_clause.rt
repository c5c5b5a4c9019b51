ghost use Rattle.std.specs.Prelude.{◌≡◌, ◌<◌, ◌^◌, ◌++◌, ◌∷◌, [], All, IfOk, OnOk, OnErr};

use crate::packed_lit::PackedLit;
use smallvec::SmallVec;
use std::alloc::Global;
use std::marker::Model;
use ygg_cnf::{Clauses, Lit};
use ygg_list::NoMemory;

/// A clause of literals of 4 bytes. Up to four stand in it, and more in an allocation.
#[derive(Drop)]
pub struct PackedClause {
    lits: SmallVec<PackedLit, 4>,
}

impl Model for PackedClause {
    ghost use Rattle.std.specs.Prelude.{List};
    ghost use Rattle.ygg_cnf.specs.declared.lit.Lit.{Lit};

    ghost Value = { List Lit };

    ghost view = { λ c. c.lits.items };
}

impl PackedClause {
    /// A clause of these literals. Its only error is out of memory.
    pub fn of(alloc: Global, lits: &[Lit]) -> Result<PackedClause, NoMemory>
        requires { All (λ x. x.var < 2 ^ 31) lits.now }
        ensures { IfOk result (λ clause. clause ≡ lits.now) }
    {
        let mut clause = PackedClause::with_capacity(alloc, lits.len())?;
        for lit in lits {
            clause.push(*lit)?;
        }
        Ok(clause)
    }

    /// The empty clause, with room for so many literals. Its only error is out of memory.
    #[inline(always)]
    pub fn with_capacity(alloc: Global, room: usize) -> Result<PackedClause, NoMemory>
        ensures { IfOk result (λ clause. clause ≡ []) }
    {
        Ok(PackedClause {
            lits: SmallVec::with_capacity(alloc, room)?,
        })
    }

    /// Adds a literal at the end. After running out of memory the clause is as before.
    #[inline(always)]
    pub fn push(&mut self, lit: Lit) -> Result<(), NoMemory>
        requires { lit.var < 2 ^ 31 }
        ensures ok { OnOk result (self.new ≡ self.old ++ lit ∷ []) }
        ensures err { OnErr result (self.new ≡ self.old) }
    {
        self.lits.push(PackedLit::of(lit))?;
        Ok(())
    }

    /// All literals in order.
    #[inline(always)]
    pub fn as_slice(&self) -> &[PackedLit]
        ensures { result.now ≡ self.now }
    {
        self.lits.as_slice()
    }
}

/// The clauses, each of literals of 4 bytes. Its only error is out of memory.
pub fn pack_all(alloc: Global, clauses: &Clauses) -> Result<Vec<PackedClause>, NoMemory>
    requires { All (All (λ x. x.var < 2 ^ 31)) clauses.now }
    ensures { IfOk result (λ packed. packed.items ≡ clauses.now) }
{
    let mut packed = Vec::with_capacity(alloc, clauses.len())?;
    for clause in clauses.as_slice() {
        packed.push(PackedClause::of(alloc, clause.as_slice())?)?;
    }
    Ok(packed)
}
