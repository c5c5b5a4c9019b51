//! Nodes made by the rules.

ghost use Rattle.std.specs.Prelude.{◌≡◌, IfOk, OnOk};
ghost use Rattle.ygg_shape_words.specs.ygg_bank.Nodes.{CanMake, Extends, HasWidth, IsBank, node_width, widths_of};
ghost use Rattle.ygg_shape_words.specs.ygg_bank.Values.{AnswersFor, KeepsValues};
ghost use Rattle.ygg_shape_nodes.specs.Making.{IsMade, made_small, made_within};

use crate::rules::{Instead, instead_of};
use ygg_shape_words::{Bank, Book, Id, NoMemory, Node, pick};

/// How many rules may be asked one after another.
pub const RULE_DEPTH: u32 = 80;

/// The node of this value, by as many rules one after another.
fn made_within<B: Book>(bank: &mut Bank, book: &B, depth: u32, node: &Node) -> Result<Id, NoMemory>
    requires bank { IsBank bank.old }
    requires can { CanMake bank.old node.now }
    ensures made { IfOk result (IsMade (made_within (B.kinds book.now) depth node.now) bank.old bank.new) }
    ensures width { IfOk result (λ id. HasWidth bank.new id (node_width (widths_of bank.old) node.now)) }
    ensures grows { Extends bank.old bank.new }
    ensures bank { IsBank bank.new }
{
    if depth == 0 {
        let answer = bank.make(*node, book)?;
        return Ok(answer);
    }
    match instead_of(bank, *node) {
        Instead::Itself => {
            let answer = bank.make(*node, book)?;
            Ok(answer)
        }
        Instead::Term(term) => Ok(term),
        Instead::Constant(word) => {
            let answer = bank.make(Node::Const(word), book)?;
            Ok(answer)
        }
        Instead::Other(other) => {
            let answer = made_within(bank, book, depth - 1, &other)?;
            Ok(answer)
        }
        Instead::Split { test, yes, no } => {
            let one = made_within(bank, book, depth - 1, &yes)?;
            let two = made_within(bank, book, depth - 1, &no)?;
            let answer = pick(bank, book, test, one, two)?;
            Ok(answer)
        }
    }
}

/// The term of the node's value, in every environment: the node itself, or what the rules say is made in its stead. Its only error is out of
/// memory, after which the bank may have more nodes.
pub fn make_small<B: Book>(bank: &mut Bank, book: &B, node: Node) -> Result<Id, NoMemory>
    requires can { CanMake bank.old node }
    ensures nodes { OnOk result (bank.new ≡ (made_small (B.kinds book.now) node bank.old).nodes) }
    ensures form { IfOk result (λ id. id ≡ (made_small (B.kinds book.now) node bank.old).value) }
    ensures width { IfOk result (λ id. HasWidth bank.new id (node_width (widths_of bank.old) node)) }
    ensures value { IfOk result (AnswersFor bank.old node bank.new) }
    ensures grows { Extends bank.old bank.new }
    ensures keeps { KeepsValues bank.old bank.new }
    ensures bank { IsBank bank.new }
{
    // the bank's nodes stand in order
    let _ = bank.len();
    made_within(bank, book, RULE_DEPTH, &node)
}
