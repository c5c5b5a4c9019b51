ghost use Rattle.std.specs.Prelude.{◌≡◌, ◌≤◌, ◌^◌, [], All, IfOk};
ghost use Rattle.ygg_watch.specs.Propagation.{IsFresh, IsWithin};
ghost use Rattle.ygg_watch.specs.State.{IsLive};

use crate::examine::{Examined, examine_all};
use crate::frame::Checkpoint;
use crate::links::Links;
use crate::visit::visit_all;
use crate::{Assigned, Assignments, Found, PackedEntry, Propagate, Trail, spread};
use std::alloc::Global;
use std::marker::Model;
use ygg_cnf::{Clause, Lit};
use ygg_cnf_set::PackedClause;
use ygg_list::NoMemory;

/// Propagation that watches two literals of each clause, and reads a clause only where a watched one becomes false.
///
/// Two nodes of `links` are the watches of each clause. A clause both of whose watches are one literal is in no watch list.
///
/// The first `head` assigned literals and the first `seen` clauses have been looked at. A clause that was looked at has a true
/// literal beside each watched one that is false by such a literal. `frames` has both numbers as they were when each level
/// was opened, so that calls may come in any order.
pub struct Watch {
    clauses: Vec<PackedClause>,
    links: Links,
    trail: Assignments,
    frames: Vec<Checkpoint>,
    head: usize,
    seen: usize,
}

impl Drop for Watch {
    fn drop(self) {
        let Watch {
            clauses,
            links,
            trail,
            frames,
            head: _,
            seen: _,
        } = self;
        drop(clauses);
        drop(links);
        drop(trail);
        drop(frames);
    }
}

impl Model for Watch {
    ghost use Rattle.std.specs.Prelude.{vec_capacity};
    ghost use Rattle.ygg_watch.specs.Propagation.{Propagation};
    ghost use Rattle.ygg_watch.specs.Status.{state_of};
    ghost use Rattle.ygg_watch.specs.State.{IsState};

    ghost Value = { Propagation };

    ghost view = { λ s. state_of s.clauses.items s.trail };

    ghost invariant = { λ s. IsState s.clauses.items s.links.watched s.links.next s.links.firsts s.trail.entries.items s.trail.starts.items
        s.trail.variable_count s.frames.items (vec_capacity s.frames) s.head s.seen };
}

/// Watches of so many clauses, which are in no list. Its only error is out of memory.
fn links_for(
    alloc: Global,
    variable_count: u64,
    clauses: &[PackedClause],
) -> Result<Links, NoMemory>
    requires small { variable_count ≤ 2 ^ 31 }
    requires within { All (IsWithin variable_count) clauses.now }
    ensures { IfOk result (λ links. IsLive clauses.now links.watched links.next links.firsts [] [] variable_count [] 0 0) }
{
    let mut links = Links::new(alloc, 2 * variable_count as usize)?;
    for _ in 0..clauses.len() {
        links.add()?;
    }
    Ok(links)
}

impl Watch {
    /// The clauses are held, and nothing is assigned. Its only error is out of memory, which more than 2,147,483,648 variables come to.
    pub fn over(
        alloc: Global,
        variable_count: u64,
        clauses: Vec<PackedClause>,
    ) -> Result<Watch, NoMemory>
        requires { All (IsWithin variable_count) clauses.items }
        ensures fresh { IfOk result (IsFresh clauses.items) }
        ensures variable_count { IfOk result (λ p. p.variable_count ≡ variable_count) }
    {
        let frames = Vec::with_capacity(alloc, variable_count as usize)?;
        let trail = Assignments::new(alloc, variable_count)?;
        let links = links_for(alloc, trail.variable_count, clauses.as_slice())?;
        Ok(Watch {
            clauses,
            links,
            trail,
            frames,
            head: 0,
            seen: 0,
        })
    }
}

impl Propagate for Watch {
    ghost state = { λ s. s };

    fn add(&mut self, clause: &Clause) -> Result<(), NoMemory> {
        self.clauses.reserve(1)?;
        let kept = PackedClause::of(*self.clauses.allocator(), clause.as_slice())?;
        self.links.add()?;
        self.clauses.push_reserved(kept);
        Ok(())
    }

    fn decide(&mut self, lit: Lit) {
        self.frames.push_reserved(Checkpoint {
            head: self.head,
            seen: self.seen,
        });
        self.trail.decide(lit);
    }

    fn spread(&mut self) -> Found {
        match examine_all(
            self.clauses.as_slice(),
            &mut self.links,
            &mut self.trail,
            self.frames.as_slice(),
            self.head,
            &mut self.seen,
        ) {
            Examined::Fine => {}
            Examined::False => {
                return Found::False(self.seen as u64 + 1);
            }
            Examined::Stuck => {
                // there are fewer clauses than 4 bytes number
                let _ = self.links.len();
                return spread(self.clauses.as_slice(), &mut self.trail);
            }
        }
        match visit_all(
            self.clauses.as_slice(),
            &mut self.links,
            &mut self.trail,
            self.frames.as_slice(),
            &mut self.head,
            self.seen,
        ) {
            Some(id) => Found::False(id),
            None => Found::Quiet,
        }
    }

    fn back(&mut self, level: u64) {
        let at = level as usize;
        if at < self.frames.len() {
            let frame = self.frames[at];
            self.head = frame.head;
            self.seen = frame.seen;
            self.frames.truncate(at);
            self.trail.back(level);
        }
    }

    fn assigned(&self, var: u64) -> Option<Assigned> {
        self.trail.assigned(var)
    }
}

impl Trail for Watch {
    fn clauses(&self) -> &[PackedClause] {
        self.clauses.as_slice()
    }

    fn trail(&self) -> &[PackedEntry] {
        self.trail.entries()
    }

    fn places(&self) -> &[u32] {
        self.trail.places()
    }
}
