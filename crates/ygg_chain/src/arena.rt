//! Clauses in one list of literals.

ghost use Rattle.std.specs.Prelude.{◌≡◌, ◌<◌, ℕ, None, Some, [], ◌∷◌, ◌++◌, length, map, take, slice_get, All, Contains, IsTrue, ◌↔◌, MatchOption, OnOk, OnErr};
ghost use Rattle.ygg_cnf.specs.Patterns.{IsPattern, made, picked};
ghost use Rattle.ygg_chain.specs.Arena.{HasEmpty, HasNone, lits_of, made_at};

use std::alloc::Global;
use std::marker::Model;
use ygg_cnf::{Pattern, PatternLit};
use ygg_cnf_set::PackedLit;
use ygg_list::NoMemory;

/// Where the literals of a clause are found.
#[derive(Clone, Copy, Drop)]
pub enum Stored {
    /// They stand behind one another: from one place up to another, which is no longer one of theirs.
    Whole { from: usize, end: usize },
    /// A pattern makes them of those that stand from a place on.
    Made { from: usize, pattern: Pattern },
}

/// A clause of an arena.
#[derive(Drop)]
pub enum ArenaClause<'a> {
    Whole(&'a [PackedLit]),
    Two([PackedLit; 2]),
    Three([PackedLit; 3]),
}

impl ArenaClause<'_> {
    /// The literals.
    #[inline(always)]
    pub fn as_slice(&self) -> &[PackedLit]
        ensures { result.now ≡ lits_of self.now }
    {
        match self {
            ArenaClause::Whole(lits) => lits,
            ArenaClause::Two(lits) => lits,
            ArenaClause::Three(lits) => lits,
        }
    }
}

/// Clauses whose literals, of 4 bytes each, stand behind one another in one list. Clauses that patterns make of a block share its literals. Contracts see
/// the clauses.
pub struct ClauseArena {
    lits: Vec<PackedLit>,
    stored: Vec<Stored>,
}

impl Drop for ClauseArena {
    fn drop(self) {
        let ClauseArena { lits, stored } = self;
        drop(lits);
        drop(stored);
    }
}

impl Model for ClauseArena {
    ghost use Rattle.std.specs.Prelude.{List, length, All};
    ghost use Rattle.ygg_cnf.specs.declared.lit.Lit.{Lit};
    ghost use Rattle.ygg_chain.specs.Arena.{IsStored, clauses_of};

    ghost Value = { List (List Lit) };

    ghost view = { λ a. clauses_of a.lits.items a.stored.items };

    ghost invariant = { λ a. All (IsStored (length a.lits.items)) a.stored.items };
}

impl ClauseArena {
    /// No clauses. It takes no memory.
    pub fn new(alloc: Global) -> ClauseArena
        ensures { result ≡ [] }
    {
        ClauseArena {
            lits: Vec::new(alloc),
            stored: Vec::new(alloc),
        }
    }

    /// How many clauses there are.
    #[inline]
    pub fn len(&self) -> usize
        ensures { result ≡ length self.now }
    {
        self.stored.len()
    }

    /// The clause at a place, counted from 0, where one stands.
    #[inline(always)]
    pub fn get(&self, place: usize) -> Option<ArenaClause<'_>>
        ensures { MatchOption result (slice_get self.now place ≡ None) (λ clause. slice_get self.now place ≡ Some (lits_of clause)) }
    {
        let lits = self.lits.as_slice();
        match *self.stored.as_slice().get(place)? {
            Stored::Whole { from, end } => Some(ArenaClause::Whole(&lits[from..end])),
            Stored::Made { from, pattern } => Some(clause_made(&lits[from..], pattern)),
        }
    }

    /// Adds a clause at the end. After running out of memory the clauses are as before.
    #[inline]
    pub fn push(&mut self, clause: &[PackedLit]) -> Result<(), NoMemory>
        ensures ok { OnOk result (self.new ≡ self.old ++ clause.now ∷ []) }
        ensures err { OnErr result (self.new ≡ self.old) }
    {
        let from = self.lits.len();
        self.lits.extend_from_slice(clause)?;
        let end = self.lits.len();
        self.stored.push(Stored::Whole { from, end })?;
        Ok(())
    }

    /// Adds the clauses that patterns make of a block of literals. After running out of memory some of them have come.
    #[inline]
    pub fn push_made(&mut self, block: &[PackedLit], patterns: &[Pattern]) -> Result<(), NoMemory>
        requires { All (IsPattern (length block.now)) patterns.now }
        ensures ok { OnOk result (self.new ≡ self.old ++ map (made block.now) patterns.now) }
        ensures some { (count : ℕ) × (self.new ≡ self.old ++ map (made block.now) (take count patterns.now)) }
    {
        let from = self.lits.len();
        self.lits.extend_from_slice(block)?;
        push_patterns(&mut self.stored, from, patterns)
    }

    /// Whether an empty clause is among them.
    pub fn has_empty(&self) -> bool
        ensures { IsTrue result ↔ Contains self.now [] }
    {
        any_empty(self.stored.as_slice())
    }
}

/// The literal of a block that a pattern names.
#[inline(always)]
fn picked(block: &[PackedLit], lit: PatternLit) -> PackedLit
    requires { lit.place < length block.now }
    ensures { result ≡ picked block.now lit }
{
    let plain = block[lit.place as usize];
    if lit.complemented {
        plain.complement()
    } else {
        plain
    }
}

/// The clause that a pattern makes of a block.
#[inline(always)]
fn clause_made<'a>(block: &[PackedLit], pattern: Pattern) -> ArenaClause<'a>
    requires { IsPattern (length block.now) pattern }
    ensures { lits_of result ≡ made block.now pattern }
{
    let one = picked(block, pattern.one);
    let two = picked(block, pattern.two);
    match pattern.three {
        None => ArenaClause::Two([one, two]),
        Some(three) => ArenaClause::Three([one, two, picked(block, three)]),
    }
}

/// Adds the clauses that patterns make of the literals from a place on. After running out of memory some of them have come.
#[inline]
fn push_patterns(
    stored: &mut Vec<Stored>,
    from: usize,
    patterns: &[Pattern],
) -> Result<(), NoMemory>
    ensures ok { OnOk result (stored.new.items ≡ stored.old.items ++ map (made_at from) patterns.now) }
    ensures some { (count : ℕ) × (stored.new.items ≡ stored.old.items ++ map (made_at from) (take count patterns.now)) }
{
    for pattern in patterns {
        stored.push(Stored::Made {
            from,
            pattern: *pattern,
        })?;
    }
    Ok(())
}

/// Whether a clause has no literals.
fn has_none(stored: Stored) -> bool
    ensures { IsTrue result ↔ HasNone stored }
{
    match stored {
        Stored::Whole { from, end } => from == end,
        Stored::Made { .. } => false,
    }
}

/// Whether one of the clauses has no literals.
fn any_empty(stored: &[Stored]) -> bool
    ensures { IsTrue result ↔ HasEmpty stored.now }
{
    stored.iter().any(|one| has_none(*one))
}
