//! Numbers for new inputs.

ghost use Rattle.std.specs.Prelude.{◌≡◌, IfOk};
ghost use Rattle.ygg_bank.specs.Inputs.{next_after};
ghost use Rattle.ygg_bank.specs.Nodes.{IsBank};
ghost use Rattle.ygg_sym_bodies.specs.Numbers.{IsNextInput};

use ygg_bank::{Bank, Id, NoMemory, Node};

/// The least number that is above those of all inputs of a bank. Its only error is out of memory, where no number of 64 digits is.
pub fn next_input(bank: &Bank) -> Result<u64, NoMemory>
    ensures next { IfOk result (IsNextInput bank.now) }
    ensures bank { IsBank bank.now }
{
    let mut next: u64 = 0;
    for place in 0..bank.len() {
        next = after(next, bank.node(Id(place)))?;
    }
    Ok(next)
}

/// The least number that is above a node's, if it is an input, and not below another.
fn after(next: u64, node: Node) -> Result<u64, NoMemory>
    ensures { IfOk result (λ n. n ≡ next_after next node) }
{
    let Node::Input { number, .. } = node else {
        return Ok(next);
    };
    match number.checked_add(1) {
        Some(above) => Ok(next.max(above)),
        None => Err(NoMemory),
    }
}
