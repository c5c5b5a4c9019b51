//! Places that are to be visited.

ghost use Rattle.std.specs.Prelude.{◌≡◌, ◌≤◌, ◌==◌, ◌||◌, ◌&&◌, ℕ, true, false, not, OnOk, IfSome, IfNone};
ghost use Rattle.ygg_bank.specs.Pending.{has};
ghost use Rattle.ygg_bank.specs.Reaching.{has_child};

use crate::node::Node;
use std::collections::BTreeSet;
use ygg_list::NoMemory;

/// Adds a place. Its only error is out of memory.
pub fn add(pending: &mut BTreeSet<usize>, place: usize) -> Result<(), NoMemory>
    ensures { OnOk result ((p : ℕ) → has pending.new p ≡ (has pending.old p || place == p)) }
{
    pending.insert(place)?;
    Ok(())
}

/// Adds the places of a node's children. Its only error is out of memory.
pub fn add_children(pending: &mut BTreeSet<usize>, node: Node) -> Result<(), NoMemory>
    ensures { OnOk result ((p : ℕ) → has pending.new p ≡ (has pending.old p || has_child node p)) }
{
    match node {
        Node::Input { .. } | Node::Const(_) => Ok(()),
        Node::Bin { a, b, .. } => {
            add(pending, a.0)?;
            add(pending, b.0)
        }
        Node::Not { a } | Node::Resize { a, .. } => add(pending, a.0),
        Node::Pick { test, yes, no } => {
            add(pending, test.0)?;
            add(pending, yes.0)?;
            add(pending, no.0)
        }
    }
}

/// Takes the last place away.
pub fn take_last(pending: &mut BTreeSet<usize>) -> Option<usize>
    ensures here { IfSome result (λ k. has pending.old k ≡ true) }
    ensures last { IfSome result (λ k. (p : ℕ) → has pending.old p ≡ true → p ≤ k) }
    ensures others { IfSome result (λ k. (p : ℕ) → has pending.new p ≡ (has pending.old p && not (k == p))) }
    ensures none { IfNone result ((p : ℕ) → has pending.old p ≡ false) }
{
    pending.pop_last()
}
