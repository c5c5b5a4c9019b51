//! Builds chains anew: what is known of literals meanwhile.

use crate::lists::{NONE, number_at, short};
use crate::rebuilt::Rebuilt;
use crate::refutation::Refutation;
use std::alloc::Global;
use ygg_list::NoMemory;

/// The place where a literal is brought, where there is more than one.
const MANY: u32 = NONE - 1;

/// What is known of a literal. All but its unit is of the step that is derived.
#[derive(Clone, Copy)]
struct LiteralState {
    /// Whether it is in the clause so far.
    is_present: bool,
    /// The clause that crosses it out; `NONE` where none does.
    crossed_by: u32,
    /// How many clauses bring it, but for those that have come.
    uses: u32,
    /// The place in the chain of the clause that brings it: `NONE` before one does, and `MANY` where more than one does.
    brought_at: u32,
    /// The new number of the clause of this literal alone; `NONE` where there is none.
    unit: u32,
}

impl LiteralState {
    /// Nothing is known but its unit.
    fn new(unit: u32) -> LiteralState {
        LiteralState {
            is_present: false,
            crossed_by: NONE,
            uses: 0,
            brought_at: NONE,
            unit,
        }
    }
}

/// Builds a step's chain anew, one step after another.
pub struct ChainBuilder {
    literals: Vec<LiteralState>,
    // by clause its new number
    numbers: Vec<u32>,
    // the literals that were present in the step
    seen: Vec<u32>,
    // those that are crossed out, in the order of the chain
    pivots: Vec<u32>,
    // those whose crossing out comes next
    ready: Vec<u32>,
}

impl Drop for ChainBuilder {
    fn drop(self) {
        let ChainBuilder {
            literals,
            numbers,
            seen,
            pivots,
            ready,
        } = self;
        drop(literals);
        drop(numbers);
        drop(seen);
        drop(pivots);
        drop(ready);
    }
}

impl ChainBuilder {
    /// Nothing is known but the given clauses of one literal.
    pub fn new(alloc: Global, old: &Refutation) -> Result<ChainBuilder, NoMemory> {
        let mut builder = ChainBuilder {
            literals: Vec::from_elem(alloc, LiteralState::new(NONE), old.literal_count())?,
            numbers: Vec::new(alloc),
            seen: Vec::new(alloc),
            pivots: Vec::new(alloc),
            ready: Vec::new(alloc),
        };
        for place in 0..old.given {
            builder.number(short(place))?;
            builder.note_unit(old.clauses.at(place), short(place));
        }
        Ok(builder)
    }

    /// The next clause has this new number; `NONE` where it has none.
    pub fn number(&mut self, number: u32) -> Result<(), NoMemory> {
        self.numbers.push(number)?;
        Ok(())
    }

    /// Notes the clause of a new number, if it has one literal.
    pub fn note_unit(&mut self, clause: &[u32], number: u32) {
        if let [lit] = clause {
            if let Some(literal) = self.literals.get_mut(*lit as usize) {
                literal.unit = number;
            }
        }
    }

    /// What is known of a literal.
    fn literal(&self, lit: u32) -> LiteralState {
        match self.literals.get(lit as usize) {
            Some(literal) => *literal,
            None => LiteralState::new(NONE),
        }
    }

    /// The new number of the clause of the literal's complement alone; `NONE` where there is none.
    fn unit_against(&self, lit: u32) -> u32 {
        self.literal(lit ^ 1).unit
    }

    /// Resolves a step's chain, and notes which clause crosses out which literal. The literals of the step's clause are present then.
    pub fn resolve(&mut self, old: &Refutation, chain: &[u32]) -> Result<(), NoMemory> {
        for number in chain {
            self.resolve_with(old.clauses.at(*number as usize), *number)?;
        }
        Ok(())
    }

    /// Resolves the clause so far with the clause of a number.
    fn resolve_with(&mut self, clause: &[u32], number: u32) -> Result<(), NoMemory> {
        for lit in clause {
            if self.literal(*lit ^ 1).is_present {
                self.cross_out(*lit ^ 1, number)?;
            } else {
                self.put(*lit)?;
            }
        }
        Ok(())
    }

    /// Takes a literal out of the clause so far by the clause of a number.
    fn cross_out(&mut self, lit: u32, number: u32) -> Result<(), NoMemory> {
        if let Some(literal) = self.literals.get_mut(lit as usize) {
            literal.is_present = false;
            literal.crossed_by = number;
            self.pivots.push(lit)?;
        }
        Ok(())
    }

    /// Puts a literal into the clause so far, by one more clause.
    fn put(&mut self, lit: u32) -> Result<(), NoMemory> {
        if let Some(literal) = self.literals.get_mut(lit as usize) {
            literal.uses = literal.uses.wrapping_add(1);
            if !literal.is_present {
                literal.is_present = true;
                self.seen.push(lit)?;
            }
        }
        Ok(())
    }

    /// Derives the complements of literals that are false at the beginning, each by a step of its own. The clauses that crossed these out are left out.
    pub fn find_units(&mut self, old: &Refutation, made: &mut Rebuilt) -> Result<(), NoMemory> {
        for place in (0..self.pivots.len()).rev() {
            let lit = number_at(self.pivots.as_slice(), short(place));
            let number = self.literal(lit).crossed_by;
            let clause = old.clauses.at(number as usize);
            if self.unit_against(lit) != NONE {
                self.leave_out(clause, lit);
            } else if self.is_forced(clause, lit) {
                self.derive_unit(clause, number, lit, made)?;
                self.leave_out(clause, lit);
            }
        }
        Ok(())
    }

    /// Whether the clause makes the literal false at the beginning: its others are.
    fn is_forced(&self, clause: &[u32], lit: u32) -> bool {
        for other in clause {
            if *other != lit ^ 1 && self.unit_against(*other) == NONE {
                return false;
            }
        }
        true
    }

    /// The clause that crossed a literal out doesn't come, so it brings no literal.
    fn leave_out(&mut self, clause: &[u32], lit: u32) {
        for other in clause {
            if *other != lit ^ 1 {
                if let Some(literal) = self.literals.get_mut(*other as usize) {
                    literal.uses = literal.uses.wrapping_sub(1);
                }
            }
        }
    }

    /// Derives the clause of the literal's complement alone, from the clause of this number.
    fn derive_unit(
        &mut self,
        clause: &[u32],
        number: u32,
        lit: u32,
        made: &mut Rebuilt,
    ) -> Result<(), NoMemory> {
        made.push(number_at(self.numbers.as_slice(), number), NONE)?;
        for other in clause {
            if *other != lit ^ 1 {
                made.push(self.unit_against(*other), 0)?;
            }
        }
        let unit = made.close(&[lit ^ 1])?;
        self.note_unit(&[lit ^ 1], unit);
        Ok(())
    }

    /// Puts a chain's clauses, at most so many, in order, from its first one on: a clause comes when all that bring the literal that it crosses out have come,
    /// and of these clauses the one whose literal was brought last.
    pub fn order(
        &mut self,
        old: &Refutation,
        first: u32,
        most: usize,
        made: &mut Rebuilt,
    ) -> Result<(), NoMemory> {
        self.take(old, first, NONE, made)?;
        for _ in 0..most {
            let Some(lit) = self.ready.pop() else {
                return Ok(());
            };
            let literal = self.literal(lit);
            self.take(old, literal.crossed_by, literal.brought_at, made)?;
        }
        Ok(())
    }

    /// Adds the clause of a number to the chain, and the steps that cross out literals which it is the last to bring.
    fn take(
        &mut self,
        old: &Refutation,
        number: u32,
        parent: u32,
        made: &mut Rebuilt,
    ) -> Result<(), NoMemory> {
        let place = made.chain_len();
        made.push(number_at(self.numbers.as_slice(), number), parent)?;
        for lit in old.clauses.at(number as usize) {
            self.bring(*lit, place, made)?;
        }
        Ok(())
    }

    /// Notes that the clause at a place of the chain brings a literal, if that is crossed out. Where it is the last to do so, the crossing out may come.
    fn bring(&mut self, lit: u32, place: u32, made: &mut Rebuilt) -> Result<(), NoMemory> {
        let Some(literal) = self.literals.get_mut(lit as usize) else {
            return Ok(());
        };
        if literal.is_present || literal.crossed_by == NONE {
            return Ok(());
        }
        let is_first = literal.brought_at == NONE;
        let parent = if is_first { place } else { MANY };
        literal.brought_at = parent;
        literal.uses = literal.uses.wrapping_sub(1);
        if literal.uses > 0 {
            return Ok(());
        }
        let unit = self.unit_against(lit);
        if unit == NONE {
            self.ready.push(lit)?;
            Ok(())
        } else {
            made.push(unit, parent)
        }
    }

    /// Forgets what was known of the step.
    pub fn clear(&mut self) {
        for lit in self.seen.as_slice() {
            if let Some(literal) = self.literals.get_mut(*lit as usize) {
                *literal = LiteralState::new(literal.unit);
            }
        }
        self.seen.clear();
        self.pivots.clear();
        self.ready.clear();
    }
}
