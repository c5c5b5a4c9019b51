//! Which literals of a learned clause the others imply. All of it is advice: no proof rests on what it says.

use crate::seen_places::has_seen;
use std::alloc::Global;
use ygg_cnf::Lit;
use ygg_cnf_set::{PackedClause, PackedLit};
use ygg_list::NoMemory;
use ygg_watch::PackedEntry;

/// What is known of a place: nothing, that seen literals imply its literal, or that it was not found so.
#[derive(Clone, Copy, PartialEq, Eq)]
enum Known {
    Nothing,
    Implied,
    Other,
}

/// Finds the places of the trail whose literals follow from the other literals of a learned clause, as in the recursive
/// minimization of Sörensson and Biere, with a stack in place of the recursion.
pub struct Removal {
    /// By place.
    known: Vec<Known>,
    /// The places of which something is known, to forget them again.
    touched: Vec<u32>,
    /// The implied places. One that another hangs on stands before it.
    implied: Vec<u32>,
    /// The seen places that are asked for, some of them more than once.
    is_seen: Vec<u32>,
    /// The places that are being asked for, each because of the one below it.
    stack: Vec<Asked>,
    /// By level, whether a seen literal is of it. A literal of another level is not implied.
    levels: Vec<bool>,
    /// The places of level 0 that were come by are below it. They are implied by no others, and aren't asked for.
    lowest_end: usize,
    /// How many clauses the chain had when it was asked what is implied: those that the conflict was resolved with.
    resolved: usize,
}

impl Drop for Removal {
    fn drop(self) {
        let Removal {
            known,
            touched,
            implied,
            is_seen,
            stack,
            levels,
            lowest_end: _,
            resolved: _,
        } = self;
        drop(known);
        drop(touched);
        drop(implied);
        drop(is_seen);
        drop(stack);
        drop(levels);
    }
}

impl Removal {
    /// Nothing is known. It takes no memory.
    pub fn new(alloc: Global) -> Removal {
        Removal {
            known: Vec::new(alloc),
            touched: Vec::new(alloc),
            implied: Vec::new(alloc),
            is_seen: Vec::new(alloc),
            stack: Vec::new(alloc),
            levels: Vec::new(alloc),
            lowest_end: 0,
            resolved: 0,
        }
    }

    /// The places whose literals were found to be implied. One that another hangs on stands before it.
    pub fn implied(&self) -> &[u32] {
        self.implied.as_slice()
    }

    /// A number that the places of level 0 are below whose literals are seen, or come in with the reasons of implied places.
    pub fn lowest_end(&self) -> usize {
        self.lowest_end
    }

    /// How many clauses of the chain the conflict was resolved with. Those after them were resolved with to leave literals out.
    pub fn resolved(&self) -> usize {
        self.resolved
    }

    /// Forgets what was found, and makes room for so many places.
    fn clear(&mut self, size: usize) -> Result<(), NoMemory> {
        for place in &self.touched {
            write(self.known.as_mut_slice(), *place as usize, Known::Nothing);
        }
        self.touched.clear();
        self.implied.clear();
        self.is_seen.clear();
        self.stack.clear();
        self.lowest_end = 0;
        if self.known.len() < size {
            self.known.resize(size, Known::Nothing)?;
        }
        if self.levels.len() <= size && size < usize::MAX {
            self.levels.resize(size + 1, false)?;
        }
        Ok(())
    }

    /// Whether the place is of level 0. Such a place is kept in mind.
    fn is_lowest(&mut self, trail: &[PackedEntry], place: u32) -> bool {
        if level_at(trail, place) > 0 {
            return false;
        }
        self.lowest_end = self.lowest_end.max(place as usize + 1);
        true
    }

    /// Keeps what is known of a place.
    fn settle(&mut self, place: u32, known: Known) -> Result<(), NoMemory> {
        write(self.known.as_mut_slice(), place as usize, known);
        self.touched.push(place)?;
        Ok(())
    }

    /// Gathers the seen places below `start` that a clause of the chain has, but for those of level 0, and notes their levels. Each seen literal is
    /// one of a clause that was resolved, so none is missed, and the rest of the trail is not looked at.
    fn gather(
        &mut self,
        seen: &[bool],
        clauses: &[PackedClause],
        trail: &[PackedEntry],
        places: &[u32],
        start: usize,
        chain: &[u64],
    ) -> Result<(), NoMemory> {
        for id in chain {
            for lit in lits_of(clauses, *id) {
                let lit = lit.lit();
                let place = place_of(places, lit);
                if (place as usize) < start
                    && has_seen(seen, lit)
                    && !self.is_lowest(trail, place)
                {
                    note(self.levels.as_mut_slice(), trail, place, true);
                    self.is_seen.push(place)?;
                }
            }
        }
        Ok(())
    }

    /// Asks for each gathered place of which nothing is known.
    fn ask_all(
        &mut self,
        seen: &[bool],
        clauses: &[PackedClause],
        trail: &[PackedEntry],
        places: &[u32],
    ) -> Result<(), NoMemory> {
        let steps = trail.len().saturating_add(trail.len());
        for at in 0..self.is_seen.len() {
            let place = read(self.is_seen.as_slice(), at, u32::MAX);
            if known_at(self.known.as_slice(), place) == Known::Nothing {
                self.ask(seen, clauses, trail, places, place, steps)?;
            }
        }
        Ok(())
    }

    /// Asks for one seen place, in at most so many steps. Each of them settles a place or asks for another one.
    fn ask(
        &mut self,
        seen: &[bool],
        clauses: &[PackedClause],
        trail: &[PackedEntry],
        places: &[u32],
        place: u32,
        steps: usize,
    ) -> Result<(), NoMemory> {
        self.stack.clear();
        self.stack.push(Asked {
            place,
            is_seen: true,
            looked: 0,
        })?;
        for _ in 0..steps {
            let Some(top) = self.stack.pop() else {
                return Ok(());
            };
            let next = self.step(seen, clauses, trail, places, top);
            self.go_on(top, next)?;
        }
        Ok(())
    }

    /// Keeps what the look at a place came to, which was taken off the stack.
    fn go_on(&mut self, top: Asked, next: Next) -> Result<(), NoMemory> {
        match next {
            Next::Implied => {
                self.implied.push(top.place)?;
                self.settle(top.place, Known::Implied)
            }
            Next::Other => self.give_up(top),
            Next::Ask { other, looked } => {
                let asked = Asked { looked, ..top };
                self.stack.extend_from_slice(&[asked, other])?;
                Ok(())
            }
        }
    }

    /// Settles that a place is not found to be implied, and with it those that hang on it. None hangs on a seen one.
    fn give_up(&mut self, asked: Asked) -> Result<(), NoMemory> {
        let mut asked = asked;
        for _ in 0..self.stack.len() {
            self.settle(asked.place, Known::Other)?;
            if asked.is_seen {
                return Ok(());
            }
            let Some(below) = self.stack.pop() else {
                return Ok(());
            };
            asked = below;
        }
        self.settle(asked.place, Known::Other)
    }

    /// Looks at the literals of a place's reason that need a look. A seen literal need not be implied, but is asked for too, so
    /// that it stands before those whose reasons have it.
    fn step(
        &mut self,
        seen: &[bool],
        clauses: &[PackedClause],
        trail: &[PackedEntry],
        places: &[u32],
        asked: Asked,
    ) -> Next {
        let lits = reason_at(clauses, trail, asked.place);
        if lits.is_empty() {
            return Next::Other;
        }
        for at in asked.looked..lits.len() {
            let lit = lits[at].lit();
            let place = place_of(places, lit);
            if place > asked.place {
                return Next::Other;
            }
            // the literal that the clause implied stands at the place itself
            if place < asked.place {
                match known_at(self.known.as_slice(), place) {
                    Known::Implied => {}
                    Known::Other => {
                        if !has_seen(seen, lit) {
                            return Next::Other;
                        }
                    }
                    Known::Nothing => {
                        if !self.is_lowest(trail, place) {
                            let is_seen = has_seen(seen, lit);
                            if !is_seen && !is_near(self.levels.as_slice(), trail, place) {
                                return Next::Other;
                            }
                            return Next::Ask {
                                other: Asked {
                                    place,
                                    is_seen,
                                    looked: 0,
                                },
                                looked: at + 1,
                            };
                        }
                    }
                }
            }
        }
        Next::Implied
    }
}

/// A place that is being asked for, whether its own literal is seen, and how many literals of its reason need no further look.
#[derive(Clone, Copy)]
struct Asked {
    place: u32,
    is_seen: bool,
    looked: usize,
}

/// What the look at a place's reason came to: its literal is implied, is not found to be, or another place is asked for first.
#[derive(Clone, Copy)]
enum Next {
    Implied,
    Other,
    Ask { other: Asked, looked: usize },
}

/// The item at a place, or another one past the end.
fn read<T: Copy>(items: &[T], at: usize, otherwise: T) -> T {
    if at < items.len() {
        items[at]
    } else {
        otherwise
    }
}

/// Writes an item, where there is room for it.
fn write<T: Copy>(items: &mut [T], at: usize, item: T) {
    if at < items.len() {
        items[at] = item;
    }
}

/// What is known of a place.
fn known_at(known: &[Known], place: u32) -> Known {
    read(known, place as usize, Known::Nothing)
}

/// The place of a literal's variable in the trail, where it is assigned.
pub fn place_of(places: &[u32], lit: Lit) -> u32 {
    read(places, lit.var as usize, u32::MAX)
}

/// The level of a place of the trail, or `u64::MAX` past its end.
fn level_at(trail: &[PackedEntry], place: u32) -> u64 {
    let at = place as usize;
    if at < trail.len() {
        trail[at].entry().level
    } else {
        u64::MAX
    }
}

/// Says whether the level of a place has a seen literal.
fn note(levels: &mut [bool], trail: &[PackedEntry], place: u32, has: bool) {
    write(levels, level_at(trail, place) as usize, has);
}

/// Whether the place is of a level that has a seen literal.
fn is_near(levels: &[bool], trail: &[PackedEntry], place: u32) -> bool {
    read(levels, level_at(trail, place) as usize, false)
}

/// Forgets which levels have one of the seen literals at these places.
fn forget_levels(levels: &mut [bool], trail: &[PackedEntry], is_seen: &[u32]) {
    for place in is_seen {
        note(levels, trail, *place, false);
    }
}

/// The literals of the clause of a number, where clauses are numbered from 1, and none where there is no such clause.
pub fn lits_of(clauses: &[PackedClause], id: u64) -> &[PackedLit] {
    let at = (id as usize).wrapping_sub(1);
    if at < clauses.len() {
        clauses[at].as_slice()
    } else {
        &[]
    }
}

/// The literals of the reason of a place of the trail, and none where it has no reason.
pub fn reason_at<'a>(
    clauses: &'a [PackedClause],
    trail: &[PackedEntry],
    place: u32,
) -> &'a [PackedLit] {
    let at = place as usize;
    let reason = if at < trail.len() {
        trail[at].entry().reason
    } else {
        None
    };
    lits_of(clauses, reason.unwrap_or(0))
}

/// Finds which seen places below `start` are implied. The chain names the clauses that were resolved. Its only error is want
/// of memory.
pub fn find(
    removal: &mut Removal,
    seen: &[bool],
    clauses: &[PackedClause],
    trail: &[PackedEntry],
    places: &[u32],
    start: usize,
    chain: &[u64],
) -> Result<(), NoMemory> {
    removal.clear(trail.len())?;
    removal.resolved = chain.len();
    removal.gather(seen, clauses, trail, places, start, chain)?;
    removal.ask_all(seen, clauses, trail, places)?;
    forget_levels(
        removal.levels.as_mut_slice(),
        trail,
        removal.is_seen.as_slice(),
    );
    Ok(())
}
