//! Which nodes a term reaches.

ghost use Rattle.std.specs.Prelude.{◌≡◌, ◌+◌, ◌↔◌, ℕ, true, IfOk};
ghost use Rattle.ygg_bank.specs.Nodes.{Stands};
ghost use Rattle.ygg_bank.specs.Reaching.{has_place, AllBelow, Ascends, Reaches};

use crate::bank::Bank;
use crate::node::Id;
use crate::pending::{add, add_children, take_last};
use std::alloc::Global;
use std::collections::BTreeSet;
use ygg_list::NoMemory;

/// The places that a term reaches, in ascending order. They are found from its own down; time and memory go by how many there are. Its
/// only error is out of memory.
pub fn reached(alloc: Global, bank: &Bank, term: Id) -> Result<Vec<usize>, NoMemory>
    requires { Stands bank.now term }
    ensures ascends { IfOk result (λ places. Ascends places.items) }
    ensures below { IfOk result (λ places. AllBelow (term.0 + 1) places.items) }
    ensures each { IfOk result (λ places. (p : ℕ) → (has_place places.items p ≡ true) ↔ Reaches bank.now term.0 p) }
{
    // the bank's nodes stand in order
    let _ = bank.len();
    let mut pending = BTreeSet::new(alloc);
    add(&mut pending, term.0)?;
    let mut places = Vec::new(alloc);
    let mut below = term.0 + 1;
    while let Some(place) = take_last(&mut pending) {
        below = place;
        add_children(&mut pending, bank.node(Id(below)))?;
        places.push(below)?;
    }
    places.reverse();
    Ok(places)
}
