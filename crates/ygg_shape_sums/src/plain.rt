//! Words in which there are neither sums nor products, which is seen in one walk of most words.

ghost use Rattle.std.specs.Prelude.{◌≡◌, ◌++◌, IfOk, OnOk, IsTrue, All};
ghost use Rattle.ygg_shape_words.specs.ygg_bank.Nodes.{IsBank, Stands};
ghost use Rattle.ygg_shape_words.specs.Forms.{WordsAlike};
ghost use Rattle.ygg_shape_sums.specs.Plain.{ArePlain, IsPlain, Leads, is_whole_bin};

use crate::parts::copied;
use ygg_shape_words::{Bank, Id, NoMemory, Node};
use ygg_value::Op;

/// How many terms are looked at.
pub const LOOK_LIMIT: usize = 1000;

/// Whether it is seen that neither word has sums or products in it, also below picks and complements. The answer `false` says nothing: more terms may be
/// below the words than are looked at. Its only error is out of memory.
pub fn are_plain(bank: &Bank, one: Id, two: Id) -> Result<bool, NoMemory>
    requires bank { IsBank bank.now }
    requires words { WordsAlike bank.now one two }
    ensures { IfOk result (λ plain. IsTrue plain → ArePlain bank.now one two) }
{
    let mut todo = copied(bank.allocator(), &[one, two])?;
    for _ in 0..LOOK_LIMIT {
        let Some(term) = todo.pop() else {
            return Ok(true);
        };
        if !enter(bank, &mut todo, term)? {
            return Ok(false);
        }
    }
    Ok(false)
}

/// Puts the words of a pick and the operand of a complement after the terms that are still to be looked at, and says whether the term itself is
/// neither a sum nor a product. Its only error is out of memory.
fn enter(bank: &Bank, todo: &mut Vec<Id>, term: Id) -> Result<bool, NoMemory>
    requires bank { IsBank bank.now }
    requires term { Stands bank.now term }
    ensures stand { OnOk result (All (Stands bank.now) todo.old.items → All (Stands bank.now) todo.new.items) }
    ensures leads { IfOk result (λ whole. IsTrue whole → Leads bank.now term todo.old.items todo.new.items) }
{
    match bank.node(term) {
        Node::Input { .. } => Ok(true),
        Node::Const(_) => Ok(true),
        Node::Resize { .. } => Ok(true),
        Node::Bin { op, .. } => Ok(is_whole_bin(op)),
        Node::Not { a } => go_below(todo, &[a]),
        Node::Pick { yes, no, .. } => go_below(todo, &[no, yes]),
    }
}

/// Whether an operation is neither a sum, nor a difference, nor a product.
fn is_whole_bin(op: Op) -> bool
    ensures { result ≡ is_whole_bin op }
{
    !matches!(op, Op::Add | Op::Sub | Op::Mul)
}

/// Puts the words below a term that is itself neither a sum nor a product after the terms that are still to be looked at: the answer is `true`. Its only
/// error is out of memory.
fn go_below(todo: &mut Vec<Id>, words: &[Id]) -> Result<bool, NoMemory>
    ensures put { OnOk result (todo.new.items ≡ todo.old.items ++ words.now) }
    ensures whole { IfOk result (λ whole. IsTrue whole) }
{
    todo.extend_from_slice(words)?;
    Ok(true)
}
