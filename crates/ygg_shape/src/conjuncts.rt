//! The conjuncts of a term.

ghost use Rattle.std.specs.Prelude.{◌≡◌, ◌<◌, ◌≤◌, ◌++◌, [], length, slice_get, slice_set, Some, IfOk, OnOk};
ghost use Rattle.std.specs.List.{cons_option};
ghost use Rattle.ygg_shape_cells.specs.ygg_bank.Nodes.{IsBank, Stands};
ghost use Rattle.ygg_shape.specs.Conjuncts.{conjuncts_below, conjuncts_of, is_marked, marked, marked_at, marks_after, operands_of};

use std::alloc::Global;
use ygg_list::Sequence;
use ygg_shape_cells::pairs::Pair;
use ygg_shape_cells::{Bank, Id, NoMemory, Node};
use ygg_value::Op;

/// Terms in order.
pub type Terms = Sequence<Id>;

/// Adds an item at the end, where there is one.
pub fn put<T: Drop>(items: &mut Sequence<T>, item: Option<T>) -> Result<(), NoMemory>
    ensures { OnOk result (items.new ≡ items.old ++ cons_option item []) }
{
    if let Some(item) = item {
        items.push(item)?;
    }
    Ok(())
}

/// The operands of a conjunction.
fn operands(node: Node) -> Option<Pair>
    ensures { result ≡ operands_of (Some node) }
{
    match node {
        Node::Bin { op: Op::And, a, b } => Some(Pair { one: a, two: b }),
        _ => None,
    }
}

/// Whether a place is marked.
fn is_marked(marks: &[bool], place: usize) -> bool
    requires { place < length marks.now }
    ensures { result ≡ is_marked marks.now place }
{
    marks.get(place).copied().unwrap_or(false)
}

/// Marks the operands of a conjunction.
fn mark(marks: &mut [bool], both: Option<Pair>)
    ensures marks { marks.new ≡ marked marks.old both }
    ensures count { length marks.new ≡ length marks.old }
{
    if let Some(both) = both {
        if both.one.0 < marks.len() {
            marks[both.one.0] = true;
        }
        if both.two.0 < marks.len() {
            marks[both.two.0] = true;
        }
    }
}

/// Puts the term at a place after others, where it is marked, and marks its operands then.
fn visit(
    bank: &Bank,
    place: usize,
    marks: &mut [bool],
    conjuncts: &mut Terms,
) -> Result<(), NoMemory>
    requires bank { IsBank bank.now }
    requires stands { place < length bank.now }
    requires marks { place < length marks.old }
    ensures conjuncts { OnOk result (conjuncts.new ≡ conjuncts.old ++ marked_at marks.old place) }
    ensures marks { OnOk result (marks.new ≡ marks_after bank.now place marks.old) }
    ensures count { length marks.new ≡ length marks.old }
{
    if is_marked(marks, place) {
        mark(marks, operands(bank.node(Id(place))));
        conjuncts.push(Id(place))?;
    }
    Ok(())
}

/// Puts the marked terms below a place after others, from the last one down.
fn descend(
    bank: &Bank,
    top: usize,
    marks: &mut [bool],
    conjuncts: &mut Terms,
) -> Result<(), NoMemory>
    requires bank { IsBank bank.now }
    requires stands { top ≤ length bank.now }
    requires marks { length marks.old ≡ top }
    ensures { OnOk result (conjuncts.new ≡ conjuncts.old ++ conjuncts_below bank.now top marks.old) }
{
    let mut place = top;
    while place > 0 {
        place -= 1;
        visit(bank, place, marks, conjuncts)?;
    }
    Ok(())
}

/// A term, and the operands of each conjunction among these, from the last one down. Its only error is out of memory.
pub fn conjuncts_of(alloc: Global, bank: &Bank, term: Id) -> Result<Terms, NoMemory>
    requires bank { IsBank bank.now }
    requires stands { Stands bank.now term }
    ensures { IfOk result (λ list. list ≡ conjuncts_of bank.now term) }
{
    let _count = bank.len();
    let mut conjuncts = Terms::new(alloc);
    let mut marks = vec![in alloc; false; term.0 + 1]?;
    marks[term.0] = true;
    descend(bank, term.0 + 1, &mut marks, &mut conjuncts)?;
    Ok(conjuncts)
}
