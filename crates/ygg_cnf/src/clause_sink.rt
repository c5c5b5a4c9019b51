//! What takes clauses in, one after another.

ghost use Rattle.std.specs.Prelude.{◌≡◌, ◌++◌, ◌∷◌, [], length, map, All, IfOk, OnOk};
ghost use Rattle.ygg_cnf.specs.Literals.{once};
ghost use Rattle.ygg_cnf.specs.Patterns.{IsPattern, made};

use crate::clause::{Clause, Clauses};
use crate::lit::{Lit, are_apart};
use crate::pattern::Pattern;
use std::alloc::Global;
use ygg_list::NoMemory;

/// What takes clauses in, one after another, and holds them in order.
pub trait ClauseSink {
    ghost use Rattle.std.specs.Prelude.{◌≡◌, ◌++◌, ◌∷◌, [], List, length, map, All, OnOk};
    ghost use Rattle.ygg_cnf.specs.declared.lit.Lit.{Lit};
    ghost use Rattle.ygg_cnf.specs.Literals.{once};
    ghost use Rattle.ygg_cnf.specs.Patterns.{IsPattern, made};

    /// The clauses held.
    ghost held: { Self → List (List Lit) };

    /// Takes in a clause of these literals, each of them once. Its only error is out of memory, after which nothing is said of the clauses held.
    fn take(&mut self, alloc: Global, lits: &[Lit]) -> Result<(), NoMemory>
        ensures { OnOk result (held self.new ≡ held self.old ++ once lits.now ∷ []) };

    /// Takes in the clauses that patterns make of a block of literals, as they are. Its only error is out of memory, after which nothing is
    /// said of the clauses held.
    fn take_made(
        &mut self,
        alloc: Global,
        block: &[Lit],
        patterns: &[Pattern],
    ) -> Result<(), NoMemory>
        requires { All (IsPattern (length block.now)) patterns.now }
        ensures { OnOk result (held self.new ≡ held self.old ++ map (made block.now) patterns.now) };
}

impl ClauseSink for Clauses {
    ghost held = { λ clauses. clauses };

    fn take(&mut self, alloc: Global, lits: &[Lit]) -> Result<(), NoMemory> {
        let clause = Clause::once(alloc, lits)?;
        self.push(clause)
    }

    fn take_made(
        &mut self,
        alloc: Global,
        block: &[Lit],
        patterns: &[Pattern],
    ) -> Result<(), NoMemory> {
        for pattern in patterns {
            self.push(clause_made(alloc, block, *pattern)?)?;
        }
        Ok(())
    }
}

/// The clause that a pattern makes of a block. Its only error is out of memory.
fn clause_made(alloc: Global, block: &[Lit], pattern: Pattern) -> Result<Clause, NoMemory>
    requires { IsPattern (length block.now) pattern }
    ensures { IfOk result (λ clause. clause ≡ made block.now pattern) }
{
    let one = pattern.one.pick(block);
    let two = pattern.two.pick(block);
    match pattern.three {
        None => Clause::from_slice(alloc, &[one, two]),
        Some(three) => Clause::from_slice(alloc, &[one, two, three.pick(block)]),
    }
}

/// Puts the clause that a pattern makes of a block, each of its literals once.
fn put_one<S: ClauseSink>(
    alloc: Global,
    sink: &mut S,
    block: &[Lit],
    pattern: Pattern,
) -> Result<(), NoMemory>
    requires { IsPattern (length block.now) pattern }
    ensures { OnOk result (S.held sink.new ≡ S.held sink.old ++ once (made block.now pattern) ∷ []) }
{
    let one = pattern.one.pick(block);
    let two = pattern.two.pick(block);
    match pattern.three {
        None => sink.take(alloc, &[one, two]),
        Some(three) => sink.take(alloc, &[one, two, three.pick(block)]),
    }
}

/// Puts the clauses that patterns make of a block, each literal of a clause once, into what takes clauses in. Where the literals of the block have
/// different variables, none stands twice. Its only error is out of memory, after which nothing is said of what it holds.
pub fn put_made<S: ClauseSink>(
    alloc: Global,
    sink: &mut S,
    block: &[Lit],
    patterns: &[Pattern],
) -> Result<(), NoMemory>
    requires { All (IsPattern (length block.now)) patterns.now }
    ensures { OnOk result (S.held sink.new ≡ S.held sink.old ++ map once (map (made block.now) patterns.now)) }
{
    if are_apart(block) {
        return sink.take_made(alloc, block, patterns);
    }
    for pattern in patterns {
        put_one(alloc, sink, block, *pattern)?;
    }
    Ok(())
}
