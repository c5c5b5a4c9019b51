//! The log of a refutation with its pairs, each pair before it is named.

use crate::joining::Joined;
use crate::lists::{Lists, number_at, short, write_at};
use crate::pairs::Pair;
use crate::refutation::{Refutation, step_of};
use std::alloc::Global;
use ygg_cnf::Log;
use ygg_list::NoMemory;

/// When a clause stands in the log, and its number: twice as many steps as stand before it, and 1 more for a step itself.
type Turn = (u32, u32);

/// The log. Its only error is out of memory.
pub fn write(alloc: Global, joined: &Joined) -> Result<Log, NoMemory> {
    let clauses = resolved_pairs(alloc, joined)?;
    let turns = turns_of(alloc, &joined.refutation, joined.pairs.as_slice())?;
    write_turns(alloc, joined, &clauses, turns.as_slice())
}

/// The clauses of the pairs: each is what its two clauses are resolved to.
fn resolved_pairs(alloc: Global, joined: &Joined) -> Result<Lists, NoMemory> {
    let mut resolved = Lists::new(alloc);
    let clauses = &joined.refutation.clauses;
    for pair in joined.pairs.as_slice() {
        let made = resolvent(
            alloc,
            clause_of(clauses, &resolved, pair.first),
            clause_of(clauses, &resolved, pair.second),
        )?;
        resolved.push_list(made.as_slice())?;
    }
    Ok(resolved)
}

/// The clause of a number, among those of a refutation and of its pairs.
fn clause_of<'a>(clauses: &'a Lists, resolved: &'a Lists, number: u32) -> &'a [u32] {
    match (number as usize).checked_sub(clauses.len()) {
        Some(pair) => resolved.at(pair),
        None => clauses.at(number as usize),
    }
}

/// The literals of two clauses, each once, but for one in one of them whose complement is in the other.
fn resolvent(alloc: Global, one: &[u32], two: &[u32]) -> Result<Vec<u32>, NoMemory> {
    let mut made = Vec::new(alloc);
    for lit in one {
        if !two.contains(&(*lit ^ 1)) {
            made.push(*lit)?;
        }
    }
    for lit in two {
        if !one.contains(&(*lit ^ 1)) && !one.contains(lit) {
            made.push(*lit)?;
        }
    }
    Ok(made)
}

/// When each step and each pair stands in the log, in order.
fn turns_of(alloc: Global, refutation: &Refutation, pairs: &[Pair]) -> Result<Vec<Turn>, NoMemory> {
    let mut times = Vec::from_elem(alloc, 0, refutation.given)?;
    for step in 0..refutation.chains.len() {
        times.push(short(step).wrapping_mul(2).wrapping_add(1))?;
    }
    for pair in pairs {
        let first = number_at(times.as_slice(), pair.first);
        let second = number_at(times.as_slice(), pair.second);
        // as soon as both its clauses stand there: behind a step, and where a pair does
        let later = if first < second { second } else { first };
        times.push(later.wrapping_add(later % 2))?;
    }
    let mut turns = Vec::new(alloc);
    for place in refutation.given..times.len() {
        turns.push((number_at(times.as_slice(), short(place)), short(place)))?;
    }
    turns.sort()?;
    Ok(turns)
}

/// The steps of the log, in the order of their turns.
fn write_turns(
    alloc: Global,
    joined: &Joined,
    resolved: &Lists,
    turns: &[Turn],
) -> Result<Log, NoMemory> {
    let given = joined.refutation.given;
    let mut numbers = first_numbers(alloc, given, turns.len())?;
    let mut log = Log::new(alloc);
    for (_, number) in turns {
        let place = short(given.saturating_add(log.len()));
        write_at(numbers.as_mut_slice(), *number, place);
        let clause = clause_of(&joined.refutation.clauses, resolved, *number);
        let step = match pair_of(joined, *number) {
            Some(pair) => step_of(
                alloc,
                clause,
                &[pair.first, pair.second],
                numbers.as_slice(),
            )?,
            None => step_of(
                alloc,
                clause,
                chain_of(&joined.refutation, *number),
                numbers.as_slice(),
            )?,
        };
        log.push(step)?;
    }
    Ok(log)
}

/// The numbers in the log, so far of the given clauses alone, with room for so many others.
fn first_numbers(alloc: Global, given: usize, others: usize) -> Result<Vec<u32>, NoMemory> {
    let mut numbers = Vec::from_elem(alloc, 0, others.saturating_add(given))?;
    for place in 0..given {
        write_at(numbers.as_mut_slice(), short(place), short(place));
    }
    Ok(numbers)
}

/// The pair of a number, if it is one of a pair.
fn pair_of(joined: &Joined, number: u32) -> Option<Pair> {
    let place = (number as usize).checked_sub(joined.refutation.clauses.len())?;
    joined.pairs.as_slice().get(place).copied()
}

/// The chain of the step of a number.
fn chain_of(refutation: &Refutation, number: u32) -> &[u32] {
    match (number as usize).checked_sub(refutation.given) {
        Some(step) => refutation.chains.at(step),
        None => &[],
    }
}
