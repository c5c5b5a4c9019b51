//! What is made in the stead of a node.

ghost use Rattle.std.specs.Prelude.{◌≡◌, Some, slice_get};
ghost use Rattle.ygg_shape_words.specs.ygg_bank.Nodes.{CanMake, IsBank, Stands};
ghost use Rattle.ygg_shape_nodes.specs.Rules.{bin_instead, first_of, instead_of, not_instead};

use crate::moving::{moved_bin, resize_instead};
use crate::surely::{known_first, known_second, twice_at};
use ygg_shape_words::{Bank, Id, Node, known};
use ygg_value::{Op, Word};

/// What is made in the stead of a node.
#[derive(Clone, Copy, Drop)]
pub enum Instead {
    /// The node itself.
    Itself,
    /// This term stands for it.
    Term(Id),
    /// It is always this word.
    Constant(Word),
    /// Another node.
    Other(Node),
    /// Where the test is 1, the first node, and else the second.
    Split { test: Id, yes: Node, no: Node },
}

/// The first answer, or the second where the first is the node itself.
fn first_of(one: Instead, two: Instead) -> Instead
    ensures { result ≡ first_of one two }
{
    match one {
        Instead::Itself => two,
        other => other,
    }
}

/// What is made in the stead of the complement of a node.
fn not_instead(node: Node) -> Instead
    ensures { result ≡ not_instead (Some node) }
{
    match node {
        Node::Not { a } => Instead::Term(a),
        _ => Instead::Itself,
    }
}

/// What is made in the stead of an operation on two terms.
fn bin_instead(bank: &Bank, op: Op, a: Id, b: Id) -> Instead
    requires bank { IsBank bank.now }
    requires a { Stands bank.now a }
    requires b { Stands bank.now b }
    ensures { result ≡ bin_instead bank.now op a b }
{
    let twice = twice_at(a.0 == b.0, op, bank.width(a), a);
    let first = known_first(op, a, b, known(bank, a));
    let second = known_second(op, a, b, known(bank, b));
    let moved = moved_bin(bank, op, a, b, bank.node(a), bank.node(b));
    first_of(twice, first_of(first, first_of(second, moved)))
}

/// What is made in the stead of a node that can be made.
pub fn instead_of(bank: &Bank, node: Node) -> Instead
    requires bank { IsBank bank.now }
    requires can { CanMake bank.now node }
    ensures { result ≡ instead_of bank.now node }
{
    match node {
        Node::Bin { op, a, b } => bin_instead(bank, op, a, b),
        Node::Not { a } => not_instead(bank.node(a)),
        Node::Resize { a, width } => resize_instead(bank, a, width),
        Node::Input { .. } | Node::Const(_) | Node::Pick { .. } => Instead::Itself,
    }
}
