//! What terms are equal where a term is 1.

ghost use Rattle.std.specs.Prelude.{◌≡◌, All, IfOk, slice_get};
ghost use Rattle.std.specs.List.{filter_map};
ghost use Rattle.ygg_shape_cells.specs.ygg_bank.Nodes.{IsBank, Stands};
ghost use Rattle.ygg_shape.specs.Equations.{equation_at, equations, equations_of};

use crate::conjuncts::{conjuncts_of, put};
use std::alloc::Global;
use ygg_list::Sequence;
use ygg_shape_cells::pairs::Pair;
use ygg_shape_cells::{Bank, Id, NoMemory, Node};
use ygg_value::Op;

/// Pairs of equal terms.
pub type Equations = Sequence<Pair>;

/// Two terms that are equal where a conjunct is 1; `one` and `zero` are the constants of one digit.
fn equation_at(bank: &Bank, one: Id, zero: Id, conjunct: Id) -> Option<Pair>
    requires { Stands bank.now conjunct }
    ensures { result ≡ equation_at bank.now one zero conjunct }
{
    match bank.node(conjunct) {
        Node::Input { .. } => Some(Pair {
            one: conjunct,
            two: one,
        }),
        Node::Not { a } => Some(Pair { one: a, two: zero }),
        Node::Bin { op: Op::Eq, a, b } => Some(Pair { one: a, two: b }),
        _ => None,
    }
}

/// The terms that are equal where all conjuncts are 1. Its only error is out of memory.
pub fn equations(
    alloc: Global,
    bank: &Bank,
    one: Id,
    zero: Id,
    conjuncts: &[Id],
) -> Result<Equations, NoMemory>
    requires { All (Stands bank.now) conjuncts.now }
    ensures { IfOk result (λ list. list ≡ equations bank.now one zero conjuncts.now) }
{
    let mut found = Equations::new(alloc);
    for conjunct in conjuncts {
        put(&mut found, equation_at(bank, one, zero, *conjunct))?;
    }
    Ok(found)
}

/// The terms that are equal where a term is 1. Its only error is out of memory.
pub fn equations_of(
    alloc: Global,
    bank: &Bank,
    one: Id,
    zero: Id,
    term: Id,
) -> Result<Equations, NoMemory>
    requires bank { IsBank bank.now }
    requires stands { Stands bank.now term }
    ensures { IfOk result (λ list. list ≡ equations_of bank.now one zero term) }
{
    let conjuncts = conjuncts_of(alloc, bank, term)?;
    equations(alloc, bank, one, zero, conjuncts.as_slice())
}
