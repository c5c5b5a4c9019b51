//! Merges a word with itself under a book without rules, which makes no term and takes no memory.

ghost use Rattle.ygg_bank.specs.Nodes.{HasWidth};

use crate::timing;
use std::alloc::Global;
use std::time::Instant;
use ygg_bank::{Bank, Id, NoMemory, Node};
use ygg_rules::RuleBook;
use ygg_shape::merge;
use ygg_shape_cells::SymValue;
use ygg_value::Word;

/// Merges a word with itself so often, and prints how many terms there are and how many nanoseconds it took.
pub fn measure(rt: &HostRuntime, count: u64) -> anyhow::Result<()> {
    let book = RuleBook::new(Vec::new(rt.alloc()));
    report(rt, &book, count)
}

/// Merges in a bank of its own.
fn report(rt: &HostRuntime, book: &RuleBook, count: u64) -> anyhow::Result<()> {
    let mut bank = Bank::new(rt.alloc())?;
    let done = timed(rt, &mut bank, book, count);
    drop(bank);
    done
}

/// Merges in this bank, and prints how many terms there are and how long it took.
fn timed(rt: &HostRuntime, bank: &mut Bank, book: &RuleBook, count: u64) -> anyhow::Result<()> {
    let test = bank.make(Node::Const(Word { width: 1, bits: 1 }), book)?;
    let word = bank.make(Node::Const(Word { width: 64, bits: 1 }), book)?;
    let start = Instant::now(rt)?;
    merge_often(rt.alloc(), bank, book, test, word, count)?;
    timing::report_terms(rt, start, bank.len())?;
    Ok(())
}

/// Merges a word with itself so often.
fn merge_often(
    alloc: Global,
    bank: &mut Bank,
    book: &RuleBook,
    test: Id,
    word: Id,
    count: u64,
) -> Result<(), NoMemory>
    requires test { HasWidth bank.old test 1 }
    requires word { HasWidth bank.old word 64 }
{
    let value = SymValue::Word(word);
    for _number in 0..count {
        merge(alloc, bank, book, test, &value, &value)?;
    }
    Ok(())
}
