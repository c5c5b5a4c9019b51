//! The bank.

ghost use Rattle.std.specs.Prelude.{ℕ, ◌≡◌, ◌<◌, ◌+◌, ◌↔◌, true, length, nat_eq, slice_get, take, Some, IsSome, IfOk, OnOk, OnErr, []};
ghost use Rattle.indexmap.specs.IndexMap.{get};
ghost use Rattle.ygg_rules.specs.Views.{IsOperand, IsWidth, operand};
ghost use Rattle.ygg_bank.specs.Inputs.{InputsBelow, next_after};
ghost use Rattle.ygg_bank.specs.Making.{made, added, operand_of, view_of, id_of, is_known, is_kept};
ghost use Rattle.ygg_bank.specs.Nodes.{CanMake, Extends, HasWidth, InOrder, IsBank, Stands, node_width, width_at, widths_of};
ghost use Rattle.ygg_bank.specs.Reaching.{has_place, AllBelow, Ascends, Reaches};
ghost use Rattle.ygg_bank.specs.Values.{AnswersFor, EnvFits, GivenFit, KeepsValues, KnowsChildren, inputs_of, numbers_given, value_of};

use crate::env::{Env, words_by_number};
use crate::node::{Id, Node};
use crate::visits::reached;
use indexmap::{IndexMap, IndexSet};
use std::alloc::Global;
use std::marker::Model;
use ygg_list::NoMemory;
use ygg_rules::{Book, Operand, Rewrite, View, width_of};
use ygg_value::{Op, Word, apply, not, resize};

/// Terms, each once: a node's place is its number, and its children stand before it. Contracts see the list of nodes.
#[derive(Drop)]
pub struct Bank {
    nodes: IndexSet<Node>,
    // the width of each node
    widths: Vec<u8>,
}

impl Model for Bank {
    ghost use Rattle.std.specs.Prelude.{List, ◌≡◌};
    ghost use Rattle.ygg_bank.specs.Nodes.{IsBank, widths_of};
    ghost use Rattle.ygg_bank.specs.declared.node.Node.{Node};

    ghost Value = { List Node };

    ghost view = { λ bank. bank.nodes.keys };

    ghost invariant = { λ bank. IsBank bank.nodes.keys × (bank.widths.items ≡ widths_of bank.nodes.keys) };
}

impl Bank {
    /// The bank without nodes. Its only error is out of memory.
    pub fn new(alloc: Global) -> Result<Bank, NoMemory>
        ensures { IfOk result (λ bank. bank ≡ []) }
    {
        Ok(Bank {
            nodes: IndexSet::new(alloc),
            widths: Vec::new(alloc),
        })
    }

    /// The allocator that the bank grows by, for what is built beside it. It takes no memory.
    pub fn allocator(&self) -> Global
        ensures { IsBank self.now }
    {
        *self.nodes.allocator()
    }

    /// How many nodes there are. It takes no memory.
    pub fn len(&self) -> usize
        ensures count { result ≡ length self.now }
        ensures bank { IsBank self.now }
    {
        self.nodes.len()
    }

    /// The node at a place. It takes no memory.
    pub fn node(&self, id: Id) -> Node
        requires { Stands self.now id }
        ensures there { slice_get self.now id.0 ≡ Some result }
        ensures width { HasWidth self.now id (node_width (widths_of self.now) result) }
    {
        *self.nodes.get_index(id.0).unwrap()
    }

    /// How many binary digits the node at a place has. It takes no memory.
    pub fn width(&self, id: Id) -> u8
        requires { Stands self.now id }
        ensures value { result ≡ width_at (widths_of self.now) id }
        ensures width { HasWidth self.now id result }
        ensures fits { IsWidth result }
    {
        self.widths.as_slice()[id.0]
    }

    /// What a rule sees of a node.
    fn operand(&self, id: Id) -> Operand
        requires { Stands self.now id }
        ensures value { result ≡ operand_of self.now id }
        ensures fits { IsOperand result }
    {
        match self.node(id) {
            Node::Const(word) => Operand::known(id.0, word),
            _ => Operand::unknown(id.0, self.width(id)),
        }
    }

    /// The value of a node: the operations applied to what the environment gives, in one pass over the nodes that it reaches. Time and
    /// memory go by how many these are, and by how many items the environment has. Its only error is out of memory.
    pub fn value(&self, alloc: Global, id: Id, env: &Env) -> Result<Word, NoMemory>
        requires stands { Stands self.now id }
        requires env { EnvFits env.now self.now }
        ensures { IfOk result (λ word. word ≡ value_of (inputs_of env.now) self.now id.0) }
    {
        // the bank's nodes stand in order
        let _ = self.len();
        let given = words_by_number(alloc, env)?;
        self.value_given(alloc, id, &given)
    }

    /// The value of a term, where these words are given for inputs. Its only error is out of memory.
    fn value_given(
        &self,
        alloc: Global,
        term: Id,
        given: &IndexMap<u64, Word>,
    ) -> Result<Word, NoMemory>
        requires ordered { InOrder [] self.now }
        requires stands { Stands self.now term }
        requires given { GivenFit (get nat_eq given.now) self.now }
        ensures { IfOk result (λ word. word ≡ value_of (numbers_given (get nat_eq given.now)) self.now term.0) }
    {
        let places = reached(alloc, self, term)?;
        self.value_by(alloc, term, places.as_slice(), given)
    }

    /// The value of a term, from those of the nodes that it reaches, whose places these are. Its only error is out of memory.
    fn value_by(
        &self,
        alloc: Global,
        term: Id,
        places: &[usize],
        given: &IndexMap<u64, Word>,
    ) -> Result<Word, NoMemory>
        requires ordered { InOrder [] self.now }
        requires stands { Stands self.now term }
        requires ascends { Ascends places.now }
        requires below { AllBelow (term.0 + 1) places.now }
        requires each { (p : ℕ) → (has_place places.now p ≡ true) ↔ Reaches self.now term.0 p }
        requires given { GivenFit (get nat_eq given.now) self.now }
        ensures { IfOk result (λ word. word ≡ value_of (numbers_given (get nat_eq given.now)) self.now term.0) }
    {
        let mut values = IndexMap::new(alloc);
        for place in places {
            let value = self.value_at(*place, &values, given);
            values.insert(*place, value)?;
        }
        Ok(word_at(&values, term))
    }

    /// The value of the node at a place, where those of its children are known.
    fn value_at(
        &self,
        place: usize,
        values: &IndexMap<usize, Word>,
        given: &IndexMap<u64, Word>,
    ) -> Word
        requires stands { place < length self.now }
        requires children { KnowsChildren (numbers_given (get nat_eq given.now)) self.now place (get nat_eq values.now) }
        requires given { GivenFit (get nat_eq given.now) self.now }
        ensures { result ≡ value_of (numbers_given (get nat_eq given.now)) self.now place }
    {
        match self.stored(place) {
            Node::Input { number, width } => match given.get(&number) {
                Some(word) => *word,
                None => Word { width, bits: 0 },
            },
            Node::Const(word) => word,
            Node::Bin { op, a, b } => {
                let one = word_at(values, a);
                let two = word_at(values, b);
                apply(op, one, two)
            }
            Node::Not { a } => not(word_at(values, a)),
            Node::Resize { a, width } => resize(word_at(values, a), width),
            Node::Pick { test, yes, no } => {
                let chosen = word_at(values, test);
                if chosen.bits == 1 {
                    word_at(values, yes)
                } else {
                    word_at(values, no)
                }
            }
        }
    }

    /// The node at a place, whose children stand before it.
    fn stored(&self, place: usize) -> Node
        requires { place < length self.now }
        ensures there { slice_get self.now place ≡ Some result }
        ensures ordered { InOrder [] self.now }
        ensures can { CanMake (take place self.now) result }
    {
        *self.nodes.get_index(place).unwrap()
    }

    /// What the book is asked of a node that can be made.
    fn view(&self, node: &Node) -> Option<View>
        requires { CanMake self.now node.now }
        ensures { result ≡ view_of self.now node.now }
    {
        match *node {
            Node::Input { .. } | Node::Const(_) => None,
            Node::Bin { op, a, b } => Some(View::bin(op, self.operand(a), self.operand(b))),
            Node::Not { a } => Some(View::not(self.operand(a))),
            Node::Resize { a, width } => Some(View::resize(self.operand(a), width)),
            Node::Pick { test, yes, no } => Some(View::pick(
                self.operand(test),
                self.operand(yes),
                self.operand(no),
            )),
        }
    }

    /// The width of a node that can be made.
    fn width_for(&self, node: &Node) -> u8
        requires { CanMake self.now node.now }
        ensures { result ≡ node_width (widths_of self.now) node.now }
    {
        match *node {
            Node::Input { width, .. } | Node::Resize { width, .. } => width,
            Node::Const(word) => word.width,
            Node::Bin { op, a, .. } => width_of(op, self.width(a)),
            Node::Not { a } => self.width(a),
            Node::Pick { yes, .. } => self.width(yes),
        }
    }

    /// The place of a node, which is added where it isn't there. After running out of memory the bank is as before.
    fn add(&mut self, node: Node) -> Result<Id, NoMemory>
        requires { CanMake self.old node }
        ensures nodes { OnOk result (self.new ≡ (added node self.old).nodes) }
        ensures id { IfOk result (λ id. id ≡ (added node self.old).value) }
        ensures err { OnErr result (self.new ≡ self.old) }
    {
        let width = self.width_for(&node);
        self.widths.reserve(1)?;
        match self.nodes.insert_full(node) {
            Ok((place, is_new)) => {
                if is_new {
                    self.widths.push_reserved(width);
                }
                Ok(Id(place))
            }
            Err(_) => Err(NoMemory),
        }
    }

    /// The node of this value, in every environment: what the book names in its stead, or the node itself, where it stands or is added.
    /// The book is asked once, and nothing of inputs, constants and nodes of which it is seen that each rule keeps them. After running out of
    /// memory, which is the only error, the bank is as before.
    pub fn make<B: Book>(&mut self, node: Node, book: &B) -> Result<Id, NoMemory>
        requires { CanMake self.old node }
        ensures nodes { OnOk result (self.new ≡ (made (B.kinds book.now) node self.old).nodes) }
        ensures id { IfOk result (λ id. id ≡ (made (B.kinds book.now) node self.old).value) }
        ensures width { IfOk result (λ id. HasWidth self.new id (node_width (widths_of self.old) node)) }
        ensures value { IfOk result (AnswersFor self.old node self.new) }
        ensures grows { Extends self.old self.new }
        ensures keeps { KeepsValues self.old self.new }
        ensures bank { IsBank self.new }
        ensures inputs { (next : ℕ) → InputsBelow next self.old → InputsBelow (next_after next node) self.new }
        ensures err { OnErr result (self.new ≡ self.old) }
    {
        self.make_by(node, book)
    }

    /// Whether the node at a place is a constant.
    #[inline(always)]
    fn is_known(&self, id: Id) -> bool
        ensures { result ≡ is_known self.now id }
    {
        matches!(self.nodes.get_index(id.0), Some(Node::Const(_)))
    }

    /// Whether each rule keeps the node, as far as that is seen without a view of it.
    #[inline(always)]
    fn is_kept(&self, node: &Node) -> bool
        ensures { result ≡ is_kept self.now node.now }
    {
        match *node {
            Node::Input { .. } | Node::Const(_) => true,
            Node::Bin { op, a, b } => {
                if a.0 == b.0 {
                    return false;
                }
                match op {
                    Op::And | Op::Or | Op::Add => !self.is_known(a) && !self.is_known(b),
                    _ => !self.is_known(a) || !self.is_known(b),
                }
            }
            Node::Not { a } | Node::Resize { a, .. } => !self.is_known(a),
            Node::Pick { test, yes, no } => yes.0 != no.0 && !self.is_known(test),
        }
    }

    /// What `make` does.
    fn make_by<B: Book>(&mut self, node: Node, book: &B) -> Result<Id, NoMemory>
        requires { CanMake self.old node }
        ensures nodes { OnOk result (self.new ≡ (made (B.kinds book.now) node self.old).nodes) }
        ensures id { IfOk result (λ id. id ≡ (made (B.kinds book.now) node self.old).value) }
        ensures err { OnErr result (self.new ≡ self.old) }
        ensures before { IsBank self.old }
    {
        // the bank's invariant says that what the book answers can be made
        let _ = &self.nodes;
        if self.is_kept(&node) {
            return self.add(node);
        }
        let Some(view) = self.view(&node) else {
            return self.add(node);
        };
        match book.view(&view) {
            Rewrite::Keep => self.add(node),
            Rewrite::Operand(number) => Ok(id_of(&view, number)),
            Rewrite::Constant(word) => self.add(Node::Const(word)),
            Rewrite::Node(op, first, second) => {
                let a = id_of(&view, first);
                let b = id_of(&view, second);
                self.add(Node::Bin { op, a, b })
            }
        }
    }
}

/// The word at a place, which has one.
fn word_at(values: &IndexMap<usize, Word>, id: Id) -> Word
    requires { IsSome (get nat_eq values.now id.0) }
    ensures { get nat_eq values.now id.0 ≡ Some result }
{
    *values.get(&id.0).unwrap()
}

/// The place of an operand that a rule names.
fn id_of(view: &View, number: u8) -> Id
    ensures { result ≡ id_of (operand view.now number) }
{
    match number {
        0 => Id(view.one.id),
        1 => place_of(&view.two),
        2 => place_of(&view.three),
        _ => Id(0),
    }
}

/// The place of an operand; the first place where there is none.
fn place_of(operand: &Option<Operand>) -> Id
    ensures { result ≡ id_of operand.now }
{
    match operand {
        Some(operand) => Id(operand.id),
        None => Id(0),
    }
}
