//! Makes terms in a bank under a book without rules, half of them such as are there.

use crate::timing;
use std::time::Instant;
use ygg_bank::{Bank, NoMemory, Node};
use ygg_rules::RuleBook;
use ygg_value::Word;

/// Asks for 4 terms for each number of a count, of which 2 are new, and prints how many there are and how many nanoseconds it took.
pub fn measure(rt: &HostRuntime, count: u64) -> anyhow::Result<()> {
    let book = RuleBook::new(Vec::new(rt.alloc()));
    report(rt, &book, count)
}

/// Makes the terms in a bank of their own.
fn report(rt: &HostRuntime, book: &RuleBook, count: u64) -> anyhow::Result<()> {
    let mut bank = Bank::new(rt.alloc())?;
    let done = timed(rt, &mut bank, book, count);
    drop(bank);
    done
}

/// Makes the terms in this bank, and prints how many there are and how long it took.
fn timed(rt: &HostRuntime, bank: &mut Bank, book: &RuleBook, count: u64) -> anyhow::Result<()> {
    let start = Instant::now(rt)?;
    fill(bank, book, count)?;
    timing::report_terms(rt, start, bank.len())?;
    Ok(())
}

/// Asks for each number and its complement, and for both again.
fn fill(bank: &mut Bank, book: &RuleBook, count: u64) -> Result<(), NoMemory> {
    for number in 0..count {
        ask(bank, book, number)?;
        ask(bank, book, number)?;
    }
    Ok(())
}

/// Asks for a number and its complement.
fn ask(bank: &mut Bank, book: &RuleBook, number: u64) -> Result<(), NoMemory> {
    let word = Word {
        width: 64,
        bits: number,
    };
    let constant = bank.make(Node::Const(word), book)?;
    bank.make(Node::Not { a: constant }, book)?;
    Ok(())
}
