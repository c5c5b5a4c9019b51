ghost use Rattle.std.specs.Prelude.{
  ◌≡◌,
  ◌<◌,
  ◌+◌,
  ◌*◌,
  ◌++◌,
  ◌∷◌,
  [],
  ℕ,
  List,
  length,
  get_or,
  set,
  replicate,
  ◌^◌,
  slice_get,
  Some,
  IsTrue,
  ◌↔◌,
  IfOk,
  OnOk,
  OnErr,
};
ghost use Rattle.ygg_cnf_set.specs.LiteralSet.{code_of};
ghost use Rattle.ygg_cnf_set.specs.Codes.{lit_at};
ghost use Rattle.ygg_watch.specs.Lists.{sibling, lit_of, no_lit};

use std::alloc::Global;
use std::marker::Model;
use ygg_cnf::Lit;
use ygg_cnf_set::{PackedClause, PackedLit, code};
use ygg_list::NoMemory;

/// The node of the other watch of the same clause.
pub fn sibling_of(node: usize) -> usize
    requires { node + 1 < 2 ^ 64 }
    ensures { result ≡ sibling node }
{
    if node % 2 == 0 { node + 1 } else { node - 1 }
}

/// A clause. It is not read.
pub fn held_clause(clauses: &[PackedClause], at: usize) -> &PackedClause
    requires { at < length clauses.now }
    ensures { slice_get clauses.now at ≡ Some result.now }
{
    &clauses[at]
}

/// The literals of a clause.
pub fn lits_of(clauses: &[PackedClause], at: usize) -> &[PackedLit]
    requires { at < length clauses.now }
    ensures { slice_get clauses.now at ≡ Some result.now }
{
    clauses[at].as_slice()
}

/// A watch: the code of its literal, and the next watch of that literal's list, plus 1, or 0 at its end.
#[derive(Clone, Copy)]
pub struct WatchNode {
    code: u32,
    next: u32,
}

/// The watches of clauses and their lists. Node 2 * k and node 2 * k + 1 are the two watches of the clause k, side by side in 16 bytes. `firsts` has the
/// first node of each literal's list by code, plus 1, or 0 where the list is empty. `starts` has the place at which the last new watch of each clause was
/// found, which is advice.
pub struct Links {
    nodes: Vec<WatchNode>,
    firsts: Vec<u32>,
    starts: Vec<u32>,
}

impl Drop for Links {
    fn drop(self) {
        let Links {
            nodes,
            firsts,
            starts,
        } = self;
        drop(nodes);
        drop(firsts);
        drop(starts);
    }
}

impl Model for Links {
    ghost use Rattle.std.specs.Prelude.{◌<◌, ◌≤◌, ◌^◌, length};
    ghost use Rattle.ygg_watch.specs.Links.{Linked, linked};

    ghost Value = { Linked };

    ghost view = { λ s. linked s.nodes.items s.firsts.items };

    ghost invariant = { λ s. (length s.nodes.items < 2 ^ 32) × (length s.firsts.items ≤ 2 ^ 32) };
}

impl Links {
    /// No watches, and so many empty lists. Its only error is out of memory, which more than 4,294,967,296 lists come to.
    pub fn new(alloc: Global, size: usize) -> Result<Links, NoMemory>
        ensures watched { IfOk result (λ l. l.watched ≡ []) }
        ensures next { IfOk result (λ l. l.next ≡ []) }
        ensures firsts { IfOk result (λ l. l.firsts ≡ replicate size 0) }
    {
        if size > 1 << 32 {
            return Err(NoMemory);
        }
        Ok(Links {
            nodes: Vec::new(alloc),
            firsts: Vec::from_elem(alloc, 0, size)?,
            starts: Vec::new(alloc),
        })
    }

    /// The two watches of one more clause, which are in no list. After running out of memory, which more than 2,147,483,647 clauses come to, nothing has
    /// changed.
    pub fn add(&mut self) -> Result<(), NoMemory>
        ensures watched { OnOk result (self.new.watched ≡ self.old.watched ++ no_lit ∷ no_lit ∷ []) }
        ensures next { OnOk result (self.new.next ≡ self.old.next ++ 0 ∷ 0 ∷ []) }
        ensures firsts { OnOk result (self.new.firsts ≡ self.old.firsts) }
        ensures err { OnErr result (self.new ≡ self.old) }
    {
        if self.nodes.len() + 2 >= 1 << 32 {
            return Err(NoMemory);
        }
        self.nodes.reserve(2)?;
        self.starts.push(0)?;
        let none = WatchNode { code: 0, next: 0 };
        self.nodes.push_reserved(none);
        self.nodes.push_reserved(none);
        Ok(())
    }

    /// The number of watches, which are two for each clause.
    pub fn len(&self) -> usize
        ensures len { result ≡ length self.now.watched }
        ensures few { result < 2 ^ 32 }
    {
        self.nodes.len()
    }

    /// Puts the node first in the watch list of the literal that has this code.
    pub fn link(&mut self, node: usize, code: usize)
        requires node { node < length self.old.next }
        requires code { code < length self.old.firsts }
        ensures watched { self.new.watched ≡ self.old.watched }
        ensures next { self.new.next ≡ set self.old.next node (get_or self.old.firsts code 0) }
        ensures firsts { self.new.firsts ≡ set self.old.firsts code (node + 1) }
    {
        let now = self.nodes[node];
        self.nodes[node] = WatchNode {
            code: now.code,
            next: self.firsts[code],
        };
        self.firsts[code] = (node + 1) as u32;
    }

    /// The next node of the watch list, plus 1, or 0 at its end.
    pub fn next(&self, node: usize) -> usize
        requires { node < length self.now.next }
        ensures next { result ≡ get_or self.now.next node 0 }
        ensures within { node < 2 ^ 32 }
    {
        self.nodes[node].next as usize
    }

    /// The literal that a node watches.
    pub fn watch(&self, node: usize) -> Lit
        requires { node < length self.now.watched }
        ensures { result ≡ lit_of self.now.watched node }
    {
        lit_at(self.nodes[node].code)
    }

    /// Whether the clause is not watched: its two watches are of one literal.
    pub fn is_unwatched(&self, at: usize) -> bool
        requires { 2 * at + 1 < length self.now.watched }
        ensures { IsTrue result ↔ (lit_of self.now.watched (2 * at) ≡ lit_of self.now.watched (2 * at + 1)) }
    {
        let first = self.nodes[2 * at];
        let second = self.nodes[2 * at + 1];
        lit_at(first.code) == lit_at(second.code)
    }

    /// Makes a node watch another literal.
    pub fn set_watch(&mut self, node: usize, lit: Lit)
        requires node { node < length self.old.watched }
        requires fits { code_of lit < length self.old.firsts }
        ensures watched { self.new.watched ≡ set self.old.watched node lit }
        ensures next { self.new.next ≡ self.old.next }
        ensures firsts { self.new.firsts ≡ self.old.firsts }
    {
        let now = self.nodes[node];
        self.nodes[node] = WatchNode {
            code: code(lit) as u32,
            next: now.next,
        };
    }

    /// The place of a clause's literals from which the search for a new watch goes on. It is advice, and nothing is said of it.
    pub fn start(&self, at: usize) -> usize {
        let starts = self.starts.as_slice();
        if at < starts.len() {
            starts[at] as usize
        } else {
            0
        }
    }

    /// Keeps the place from which the next search goes on.
    pub fn set_start(&mut self, at: usize, place: usize)
        ensures { self.new ≡ self.old }
    {
        let starts = self.starts.as_mut_slice();
        if at < starts.len() {
            starts[at] = (place % (1 << 32)) as u32;
        }
    }

    /// Takes the whole watch list of a literal away, and gives its first node, plus 1, or 0 where it is empty.
    pub fn take_first(&mut self, code: usize) -> usize
        requires { code < length self.old.firsts }
        ensures first { result ≡ get_or self.old.firsts code 0 }
        ensures watched { self.new.watched ≡ self.old.watched }
        ensures next { self.new.next ≡ self.old.next }
        ensures firsts { self.new.firsts ≡ set self.old.firsts code 0 }
    {
        let first = self.firsts[code];
        self.firsts[code] = 0;
        first as usize
    }
}

/// The literal of a code.
fn lit_at(code: u32) -> Lit
    ensures { result ≡ lit_at code }
{
    Lit {
        var: (code / 2) as u64,
        negated: code % 2 == 1,
    }
}
