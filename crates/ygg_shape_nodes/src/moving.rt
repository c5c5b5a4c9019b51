//! Widths and operations with a constant, moved into picks.

ghost use Rattle.std.specs.Prelude.{◌≡◌, Some, slice_get};
ghost use Rattle.ygg_shape_words.specs.ygg_bank.Nodes.{IsBank, Stands};
ghost use Rattle.ygg_shape_nodes.specs.Moving.{is_moved, is_open, moved_bin, resize_instead, resize_of, split_if};

use crate::rules::Instead;
use ygg_shape_words::{Bank, Id, Node};
use ygg_value::Op;

/// Whether what is done to a pick between these words is done to the words.
fn is_open(one: Node, two: Node) -> bool
    ensures { result ≡ is_open (Some one) (Some two) }
{
    match (one, two) {
        (Node::Const(_), _) => true,
        (_, Node::Const(_)) => true,
        (Node::Pick { .. }, _) => false,
        (_, Node::Pick { .. }) => false,
        (_, _) => true,
    }
}

/// A pick between two nodes, where they may be made.
fn split_if(moves: bool, test: Id, yes: Node, no: Node) -> Instead
    ensures { result ≡ split_if moves test yes no }
{
    if moves {
        Instead::Split { test, yes, no }
    } else {
        Instead::Itself
    }
}

/// What is made in the stead of the node at a place at a width.
fn resize_of(bank: &Bank, width: u8, at: Id) -> Instead
    requires bank { IsBank bank.now }
    requires at { Stands bank.now at }
    ensures { result ≡ resize_of bank.now width (slice_get bank.now at.0) }
{
    match bank.node(at) {
        Node::Resize { a, width: first } => {
            if width <= first || bank.width(a) <= first {
                Instead::Other(Node::Resize { a, width })
            } else {
                Instead::Itself
            }
        }
        Node::Pick { test, yes, no } => {
            let moves = is_open(bank.node(yes), bank.node(no));
            split_if(
                moves,
                test,
                Node::Resize { a: yes, width },
                Node::Resize { a: no, width },
            )
        }
        _ => Instead::Itself,
    }
}

/// What is made in the stead of a term at a width.
pub fn resize_instead(bank: &Bank, at: Id, width: u8) -> Instead
    requires bank { IsBank bank.now }
    requires at { Stands bank.now at }
    ensures { result ≡ resize_instead bank.now at width }
{
    if bank.width(at) == width {
        Instead::Term(at)
    } else {
        resize_of(bank, width, at)
    }
}

/// Whether an operation with a constant is moved into picks: sums and differences are, for what is undone against constants then.
fn is_moved(op: Op) -> bool
    ensures { result ≡ is_moved op }
{
    matches!(op, Op::Add | Op::Sub)
}

/// What is made in the stead of an operation on two nodes, which stand at these places.
pub fn moved_bin(bank: &Bank, op: Op, a: Id, b: Id, first: Node, second: Node) -> Instead
    requires bank { IsBank bank.now }
    requires first { slice_get bank.now a.0 ≡ Some first }
    requires second { slice_get bank.now b.0 ≡ Some second }
    ensures { result ≡ moved_bin bank.now op a b (Some first) (Some second) }
{
    match (first, second) {
        (Node::Pick { test, yes, no }, Node::Const(_)) => {
            let moves = is_moved(op) && is_open(bank.node(yes), bank.node(no));
            split_if(
                moves,
                test,
                Node::Bin { op, a: yes, b },
                Node::Bin { op, a: no, b },
            )
        }
        (Node::Const(_), Node::Pick { test, yes, no }) => {
            let moves = is_moved(op) && is_open(bank.node(yes), bank.node(no));
            split_if(
                moves,
                test,
                Node::Bin { op, a, b: yes },
                Node::Bin { op, a, b: no },
            )
        }
        (_, _) => Instead::Itself,
    }
}
