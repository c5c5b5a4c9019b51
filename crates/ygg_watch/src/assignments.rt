ghost use Rattle.std.specs.Prelude.{
  ◌≡◌,
  ◌<◌,
  ◌≤◌,
  ◌+◌,
  ◌*◌,
  ◌++◌,
  ◌∷◌,
  [],
  ◌↔◌,
  ℕ,
  length,
  IsTrue,
  ◌^◌,
  IfOk,
  IfSome,
  IfNone,
  IsNone,
  vec_capacity,
  take,
  None,
};
ghost use Rattle.ygg_cnf_set.specs.LiteralSet.{code_of, IsSetOf, Fits};
ghost use Rattle.ygg_watch.specs.Assignments.{IsTrail, IsLevelled, IsKept};
ghost use Rattle.ygg_watch.specs.Propagation.{HasValue};
ghost use Rattle.ygg_watch.specs.Trail.{IsAt, IsFalseBefore, IsAssigned, keep_level, IsOnTrail};

use crate::entry::Entry;
use crate::found::Assigned;
use crate::packed_entry::PackedEntry;
use std::alloc::Global;
use ygg_cnf::Lit;
use ygg_cnf_set::{code, insert, remove};
use ygg_list::NoMemory;

/// The assigned literals in order, their truth by literal, their places by variable, and the place at which each level
/// begins. All tables are made for the variables below `variable_count`, so that no call but `new` takes memory.
pub struct Assignments {
    pub entries: Vec<PackedEntry>,
    pub truth: Vec<bool>,
    pub places: Vec<u32>,
    pub starts: Vec<usize>,
    pub variable_count: u64,
    ghost small: { variable_count ≤ 2 ^ 31 },
    ghost trail: { IsTrail entries.items variable_count },
    ghost levelled: { IsLevelled entries.items starts.items },
    ghost kept: { IsKept entries.items truth.items places.items variable_count },
    ghost reserved: { variable_count ≤ vec_capacity entries },
    ghost levels: { variable_count ≤ vec_capacity starts },
}

impl Drop for Assignments {
    fn drop(self) {
        let Assignments {
            entries,
            truth,
            places,
            starts,
            variable_count: _,
        } = self;
        drop(entries);
        drop(truth);
        drop(places);
        drop(starts);
    }
}

impl Assignments {
    /// No literal is assigned, and variables are those below `variable_count`. Its only error is out of memory, which more than 2,147,483,648
    /// variables come to.
    pub fn new(alloc: Global, variable_count: u64) -> Result<Assignments, NoMemory>
        ensures entries { IfOk result (λ a. a.entries.items ≡ []) }
        ensures starts { IfOk result (λ a. a.starts.items ≡ []) }
        ensures variable_count { IfOk result (λ a. a.variable_count ≡ variable_count) }
    {
        if variable_count > 1 << 31 {
            return Err(NoMemory);
        }
        let size = variable_count as usize;
        let entries = Vec::with_capacity(alloc, size)?;
        let starts = Vec::with_capacity(alloc, size)?;
        let truth = Vec::from_elem(alloc, false, 2 * size)?;
        let places = Vec::from_elem(alloc, 0, size)?;
        Ok(Assignments {
            entries,
            truth,
            places,
            starts,
            variable_count,
        })
    }

    /// The assigned literals in order.
    pub fn entries(&self) -> &[PackedEntry]
        ensures { result.now ≡ self.now.entries.items }
    {
        self.entries.as_slice()
    }

    /// The number of assigned literals.
    pub fn len(&self) -> usize
        ensures { result ≡ length self.now.entries.items }
    {
        self.entries.len()
    }

    /// The entry of a place, counted from 0.
    pub fn at(&self, place: usize) -> Entry
        requires { place < length self.now.entries.items }
        ensures { IsAt self.now.entries.items place result }
    {
        self.entries[place].entry()
    }

    /// By variable, the place of its entry, where it is assigned.
    pub fn places(&self) -> &[u32]
        ensures { result.now ≡ self.now.places.items }
    {
        self.places.as_slice()
    }

    /// The greatest open level.
    pub fn level(&self) -> u64
        ensures { result ≡ length self.now.starts.items }
    {
        self.starts.len() as u64
    }

    /// The place of the literal in a table with two places for each variable.
    pub fn code(&self, lit: Lit) -> usize
        requires { lit.var < self.now.variable_count }
        ensures code { result ≡ code_of lit }
        ensures within { result < 2 * self.now.variable_count }
    {
        let _ = self.truth[code(lit)];
        code(lit)
    }

    /// Whether the literal is assigned.
    pub fn is_true(&self, lit: Lit) -> bool
        requires { lit.var < self.now.variable_count }
        ensures { IsTrue result ↔ IsOnTrail self.now.entries.items lit }
    {
        self.truth[code(lit)]
    }

    /// Whether the complement of the literal is assigned.
    pub fn is_false(&self, lit: Lit) -> bool
        requires { lit.var < self.now.variable_count }
        ensures { IsTrue result ↔ IsFalseBefore self.now.entries.items (length self.now.entries.items) lit }
    {
        self.is_true(lit.complement())
    }

    /// The entry of a variable, if it is assigned. A variable from `variable_count` on never is.
    pub fn entry_of(&self, var: u64) -> Option<Entry>
        ensures some { IfSome result (λ e. (e.lit.var ≡ var) × ((q : ℕ) × IsAt self.now.entries.items q e)) }
        ensures none { IfNone result (IsAssigned self.now.entries.items var → ⊥) }
    {
        if var >= self.variable_count {
            return None;
        }
        let positive = self.is_true(Lit {
            var,
            negated: false,
        });
        let negative = self.is_true(Lit { var, negated: true });
        if !positive && !negative {
            return None;
        }
        Some(self.at(self.places[var as usize] as usize))
    }

    /// The value of a variable, with its level and reason, if it is assigned.
    pub(crate) fn assigned(&self, var: u64) -> Option<Assigned>
        ensures none { IsNone result ↔ (IsAssigned self.now.entries.items var → ⊥) }
        ensures some { IfSome result (HasValue self.now.entries.items var) }
    {
        let entry = self.entry_of(var)?;
        Some(Assigned {
            value: !entry.lit.negated,
            level: entry.level,
            reason: entry.reason,
        })
    }

    /// Assigns the literal at the greatest open level, for that reason.
    pub fn push(&mut self, lit: Lit, reason: Option<u64>)
        requires within { lit.var < self.old.variable_count }
        requires fresh { IsAssigned self.old.entries.items lit.var → ⊥ }
        requires reason { IfSome reason (λ id. (0 < id) × (id < 2 ^ 32)) }
        ensures entries { self.new.entries.items ≡ self.old.entries.items ++ record { lit = lit; level = length self.old.starts.items; reason = reason } ∷ [] }
        ensures starts { self.new.starts.items ≡ self.old.starts.items }
        ensures variable_count { self.new.variable_count ≡ self.old.variable_count }
    {
        let place = self.entries.len();
        let level = self.starts.len() as u64;
        self.entries
            .push_reserved(PackedEntry::of(Entry { lit, level, reason }));
        insert(self.truth.as_mut_slice(), lit);
        self.places[lit.var as usize] = place as u32;
    }

    /// Opens the next level, and assigns the literal there.
    pub fn decide(&mut self, lit: Lit)
        requires within { lit.var < self.old.variable_count }
        requires fresh { IsAssigned self.old.entries.items lit.var → ⊥ }
        ensures entries { self.new.entries.items ≡ self.old.entries.items
            ++ record { lit = lit; level = length self.old.starts.items + 1; reason = None } ∷ [] }
        ensures starts { length self.new.starts.items ≡ length self.old.starts.items + 1 }
        ensures variable_count { self.new.variable_count ≡ self.old.variable_count }
    {
        let place = self.entries.len();
        let level = self.starts.len() as u64 + 1;
        self.starts.push_reserved(place);
        self.entries.push_reserved(PackedEntry::of(Entry {
            lit,
            level,
            reason: None,
        }));
        insert(self.truth.as_mut_slice(), lit);
        self.places[lit.var as usize] = place as u32;
    }

    /// Takes the literals above the level away, and closes the levels above it.
    pub fn back(&mut self, level: u64)
        requires { level ≤ length self.old.starts.items }
        ensures entries { self.new.entries.items ≡ keep_level level self.old.entries.items }
        ensures starts { length self.new.starts.items ≡ level }
        ensures variable_count { self.new.variable_count ≡ self.old.variable_count }
    {
        let level = level as usize;
        if level < self.starts.len() {
            let start = self.starts[level];
            cut(&mut self.entries, self.truth.as_mut_slice(), start);
            self.starts.truncate(level);
        }
    }
}

/// Takes the entries from a place on away.
fn cut(entries: &mut Vec<PackedEntry>, truth: &mut [bool], place: usize)
    requires place { place ≤ length entries.old.items }
    requires distinct { (p q : ℕ) (d e : _) → IsAt entries.old.items p d → IsAt entries.old.items q e → d.lit.var ≡ e.lit.var → p ≡ q }
    requires fits { (q : ℕ) (e : _) → IsAt entries.old.items q e → Fits (length truth.old) e.lit }
    requires seen { IsSetOf truth.old (IsOnTrail entries.old.items) }
    ensures entries { entries.new.items ≡ take place entries.old.items }
    ensures capacity { vec_capacity entries.new ≡ vec_capacity entries.old }
    ensures seen { IsSetOf truth.new (IsOnTrail entries.new.items) }
{
    while entries.len() > place {
        let entry = entries.take_last();
        remove(truth, entry.entry().lit);
    }
}
