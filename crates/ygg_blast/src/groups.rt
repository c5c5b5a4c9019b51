//! The gates of nodes, one group for each node.

ghost use Rattle.std.specs.Prelude.{◌≡◌, ◌<◌, ◌+◌, ◌^◌, ◌++◌, ℕ, true, slice_get, length, OnOk, IfOk};
ghost use Rattle.ygg_bank.specs.Nodes.{Stands};
ghost use Rattle.ygg_bank.specs.Reaching.{has_place, AllBelow, Ascends};
ghost use Rattle.ygg_cnf.specs.Literals.{complement};
ghost use Rattle.ygg_gates.specs.Groups.{bits_at, circuit, circuit_of, lowest as low_bit, node_bits, reaches, sources_of, with_node};
ghost use Rattle.ygg_rules.specs.Views.{IsWidth};

use crate::table::BitTable;
use std::alloc::Global;
use std::marker::Model;
use ygg_bank::{Bank, Id, Node};
use ygg_cnf::Lit;
use ygg_gates::{Gate, InputVariables, Joint};
use ygg_gates_operation::{
    BitLiterals, complements, constant_bits, free_bits, join_each, lowest, operation, resized,
};
use ygg_list::{NoMemory, Sequence};

/// What is made of the first nodes: the bits of each, none where it isn't reached; the inputs; and the gates, the first of which has the variable 2.
#[derive(Drop)]
pub struct Groups {
    pub table: BitTable,
    pub sources: Sequence<InputVariables>,
    pub gates: Vec<Gate>,
}

impl Model for Groups {
    ghost use Rattle.ygg_gates.specs.Groups.{Circuit};

    ghost Value = { Circuit };

    ghost view = { λ g. record { table = g.table; sources = g.sources; gates = g.gates.items } };
}

impl Groups {
    /// The complement of a term's literal: the last clause has it alone.
    pub fn goal(&self, term: Id) -> Lit
        ensures { result ≡ complement (low_bit (bits_at self.now.table term)) }
    {
        lowest(self.table.at(term.0)).complement()
    }
}

/// The bits of a node, and its gates.
fn node_bits(
    alloc: Global,
    table: &BitTable,
    gates: &mut Vec<Gate>,
    node: &Node,
) -> Result<BitLiterals, NoMemory>
    ensures gates { OnOk result (gates.new.items ≡ (node_bits table.now node.now gates.old.items).gates) }
    ensures value { IfOk result (λ bits. bits ≡ (node_bits table.now node.now gates.old.items).value) }
{
    match *node {
        Node::Input { width, .. } => free_bits(alloc, gates, width),
        Node::Const(word) => constant_bits(alloc, word),
        Node::Bin { op, a, b } => { operation(alloc, gates, op, table.at(a.0), table.at(b.0)) }
        Node::Not { a } => complements(alloc, table.at(a.0)),
        Node::Resize { a, width } => resized(alloc, table.at(a.0), width),
        Node::Pick { test, yes, no } => {
            let test = lowest(table.at(test.0));
            join_each(
                alloc,
                gates,
                Joint::Pick { test },
                table.at(yes.0),
                table.at(no.0),
            )
        }
    }
}

/// The variables of an input, or none of another node.
fn push_source(
    sources: &mut Sequence<InputVariables>,
    node: Node,
    first: u64,
) -> Result<(), NoMemory>
    requires width { (n w : ℕ) → node ≡ Node.Input n w → IsWidth w }
    requires numbered { first + 64 < 2 ^ 64 }
    ensures { OnOk result (sources.new ≡ sources.old ++ sources_of first node) }
{
    if let Node::Input { number, width } = node {
        return sources.push(InputVariables {
            number,
            width,
            first,
        });
    }
    Ok(())
}

/// Adds a node that is reached: its group of gates.
fn add_node(
    alloc: Global,
    table: &mut BitTable,
    sources: &mut Sequence<InputVariables>,
    gates: &mut Vec<Gate>,
    node: Node,
) -> Result<(), NoMemory>
    requires width { (n w : ℕ) → node ≡ Node.Input n w → IsWidth w }
    requires few { length table.old + 1 < 2 ^ 64 }
    ensures { OnOk result (circuit table.new sources.new gates.new.items ≡ with_node true node (circuit table.old sources.old gates.old.items)) }
{
    let first = gates.len() as u64 + 2;
    push_source(sources, node, first)?;
    let bits = node_bits(alloc, table, gates, &node)?;
    table.push(bits)
}

/// The node at a place, the width of which is known where it is an input.
fn node_at(bank: &Bank, id: Id) -> Node
    requires { Stands bank.now id }
    ensures there { slice_get bank.now id.0 ≡ Some result }
    ensures width { (n w : ℕ) → result ≡ Node.Input n w → IsWidth w }
{
    let _ = bank.width(id);
    bank.node(id)
}

/// The gates of all nodes that a term reaches, whose places these are.
#[tactic(auto, using(crate::proofs::Steps::groups_begin, crate::proofs::Steps::groups_are))]
pub fn groups_of(alloc: Global, bank: &Bank, term: Id, places: &[usize]) -> Result<Groups, NoMemory>
    requires stands { Stands bank.now term }
    requires ascends { Ascends places.now }
    requires below { AllBelow (term.0 + 1) places.now }
    requires each { (p : ℕ) → has_place places.now p ≡ reaches bank.now term p }
    ensures { IfOk result (λ groups. groups ≡ circuit_of bank.now term) }
{
    // so many nodes have places
    let _ = bank.len();
    let mut table = BitTable::new(alloc);
    let mut sources = Sequence::new(alloc);
    let mut gates = Vec::new(alloc);
    for place in places {
        table.skip_to(*place);
        let node = node_at(bank, Id(*place));
        add_node(alloc, &mut table, &mut sources, &mut gates, node)?;
    }
    table.skip_to(term.0 + 1);
    Ok(Groups {
        table,
        sources,
        gates,
    })
}
