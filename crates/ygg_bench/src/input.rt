//! Clauses, and perhaps their refutation, from standard input.
//!
//! A line of numbers is an input clause: a literal is its variable, with `-` before it where it is negated, and a 0 is passed over. A line
//! `d LIT ..` is a derived clause, and `r ID ..` the chain of the derived clause before it. Empty lines, and lines that begin with `c` or `p`, are passed over.

use std::alloc::Global;
use ygg_cnf::{Clause, Clauses, Lit, Log, Step};
use ygg_list::{NoMemory, Sequence};

/// What was read so far, and the derived clause whose chain comes next.
#[derive(Drop)]
pub struct Input {
    pub clauses: Clauses,
    pub log: Log,
    derived: Clause,
}

impl Input {
    /// Nothing is read yet.
    pub fn new(alloc: Global) -> Input {
        Input {
            clauses: Clauses::new(alloc),
            log: Log::new(alloc),
            derived: Clause::new(alloc),
        }
    }
}

/// Reads all lines of standard input.
pub fn fill(rt: &HostRuntime, input: &mut Input) -> anyhow::Result<()> {
    for line in rt.lines(rt.alloc()) {
        take(rt.alloc(), input, line?)?;
    }
    Ok(())
}

/// Takes one line, which is dropped then.
fn take(alloc: Global, input: &mut Input, line: String) -> Result<(), NoMemory> {
    take_line(alloc, input, line.as_str())
}

/// Takes one line.
fn take_line(alloc: Global, input: &mut Input, text: &str) -> Result<(), NoMemory> {
    if text.is_empty() || text.starts_with('c') || text.starts_with('p') {
        return Ok(());
    }
    if let Some(words) = text.strip_prefix('r') {
        return take_chain(alloc, input, words);
    }
    if let Some(words) = text.strip_prefix('d') {
        input.derived = Clause::new(alloc);
        return add_literals(&mut input.derived, words);
    }
    take_clause(alloc, input, text)
}

/// Takes an input clause.
fn take_clause(alloc: Global, input: &mut Input, words: &str) -> Result<(), NoMemory> {
    let mut clause = Clause::new(alloc);
    add_literals(&mut clause, words)?;
    input.clauses.push(clause)
}

/// Takes the chain of the derived clause before it.
fn take_chain(alloc: Global, input: &mut Input, words: &str) -> Result<(), NoMemory> {
    let mut chain = Sequence::new(alloc);
    add_numbers(&mut chain, words)?;
    let clause = std::mem::replace(&mut input.derived, Clause::new(alloc));
    input.log.push(Step::Added { clause, chain })
}

/// Adds the literals that the words are. A word that is no number, or 0, is passed over.
fn add_literals(clause: &mut Clause, words: &str) -> Result<(), NoMemory> {
    for word in words.split_whitespace() {
        if let Ok(number) = word.parse::<i64>() {
            let var = number.unsigned_abs();
            if var > 0 {
                clause.push(Lit {
                    var,
                    negated: number < 0,
                })?;
            }
        }
    }
    Ok(())
}

/// Adds the clause numbers that the words are. A word that is no number is passed over.
fn add_numbers(numbers: &mut Sequence<u64>, words: &str) -> Result<(), NoMemory> {
    for word in words.split_whitespace() {
        if let Ok(number) = word.parse::<u64>() {
            numbers.push(number)?;
        }
    }
    Ok(())
}
