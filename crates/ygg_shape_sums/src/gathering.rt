//! A sum of terms that are no sums.

ghost use Rattle.std.specs.Prelude.{◌≡◌, ◌++◌, ◌∷◌, [], IfOk, OnOk, Some, slice_get};
ghost use Rattle.ygg_shape_words.specs.ygg_bank.Nodes.{IsBank, Stands};
ghost use Rattle.ygg_shape_sums.specs.Gathers.{below, counted, first_test, gathered_sum, has_sum, is_rich, is_sum, parts_of, test_at, with_all};
ghost use Rattle.ygg_shape_sums.specs.Parts.{PartsAlike, Sum};
ghost use Rattle.ygg_shape_sums.specs.Readings.{FactsFit};

use crate::parts::{Summand, Total, copied, put};
use crate::reading::{Decomposition, Fact, read};
use ygg_shape_words::{Bank, Id, NoMemory, Node};

/// How many terms of a sum are read.
pub const READ_LIMIT: usize = 200;

/// The sum, read. Its only error is out of memory.
pub fn gather(bank: &Bank, facts: &[Fact], total: &Total) -> Result<Total, NoMemory>
    requires bank { IsBank bank.now }
    requires facts { FactsFit bank.now facts.now }
    requires parts { PartsAlike bank.now total.now.parts }
    ensures { IfOk result (λ (sum : Sum). sum ≡ gathered_sum bank.now facts.now total.now) }
{
    let mut todo = copied(bank.allocator(), total.parts())?;
    let mut sum = Total::new(bank.allocator(), total.number());
    for place in 0..READ_LIMIT {
        if place == todo.len() {
            return Ok(sum);
        }
        let part = todo[place];
        take_apart(&mut sum, &mut todo, part, read(bank, facts, part.term))?;
    }
    add_all(&mut sum, &todo.as_slice()[READ_LIMIT..])?;
    Ok(sum)
}

/// What a part is made of: what is no terms, added to a sum, and the terms, put after those that are still to be read.
fn take_apart(
    sum: &mut Total,
    todo: &mut Vec<Summand>,
    part: Summand,
    reading: Decomposition,
) -> Result<(), NoMemory>
    ensures sum { OnOk result (sum.new ≡ counted part reading sum.old) }
    ensures todo { OnOk result (todo.new.items ≡ todo.old.items ++ parts_of part reading) }
{
    count(sum, part, reading)?;
    list(todo, part, reading)
}

/// The parts as they are, added to a sum.
fn add_all(sum: &mut Total, parts: &[Summand]) -> Result<(), NoMemory>
    ensures { OnOk result (sum.new ≡ with_all parts.now sum.old) }
{
    for part in parts {
        sum.add(*part)?;
    }
    Ok(())
}

/// What a part is made of beside terms, added to a sum.
fn count(sum: &mut Total, part: Summand, reading: Decomposition) -> Result<(), NoMemory>
    ensures { OnOk result (sum.new ≡ counted part reading sum.old) }
{
    match reading {
        Decomposition::Whole => sum.add(part),
        Decomposition::Number(number) | Decomposition::Times { number, .. } => {
            sum.count(part.times.wrapping_mul(number));
            Ok(())
        }
        Decomposition::Both { .. } => Ok(()),
    }
}

/// The terms that a part is made of, put after those that are still to be read.
pub fn list(todo: &mut Vec<Summand>, part: Summand, reading: Decomposition) -> Result<(), NoMemory>
    ensures { OnOk result (todo.new.items ≡ todo.old.items ++ parts_of part reading) }
{
    match reading {
        Decomposition::Times { times, term, .. } => put(
            todo,
            Summand {
                times: part.times.wrapping_mul(times),
                term,
            },
        ),
        Decomposition::Both { one, times, two } => {
            let first = Summand {
                times: part.times,
                term: one,
            };
            let second = Summand {
                times: part.times.wrapping_mul(times),
                term: two,
            };
            put_both(todo, first, second)
        }
        Decomposition::Whole | Decomposition::Number(_) => Ok(()),
    }
}

/// Two parts, put after others. Its only error is out of memory.
fn put_both(todo: &mut Vec<Summand>, first: Summand, second: Summand) -> Result<(), NoMemory>
    ensures { OnOk result (todo.new.items ≡ todo.old.items ++ first ∷ second ∷ []) }
{
    put(todo, first)?;
    put(todo, second)
}

/// Whether a sum or a difference is among the parts or below picks. Its only error is out of memory.
pub fn has_sum(bank: &Bank, parts: &[Summand]) -> Result<bool, NoMemory>
    requires bank { IsBank bank.now }
    requires parts { PartsAlike bank.now parts.now }
    ensures { IfOk result (λ found. found ≡ has_sum READ_LIMIT bank.now parts.now) }
{
    let mut todo = copied(bank.allocator(), parts)?;
    for place in 0..READ_LIMIT {
        if place == todo.len() {
            return Ok(false);
        }
        let part = todo[place];
        if is_sum(read(bank, &[], part.term)) {
            return Ok(true);
        }
        look(&mut todo, part, bank.node(part.term))?;
    }
    Ok(false)
}

/// Whether a term is a sum or a difference.
fn is_sum(reading: Decomposition) -> bool
    ensures { result ≡ is_sum reading }
{
    matches!(reading, Decomposition::Both { .. })
}

/// The words of a pick, put after the terms that are still to be looked at.
pub fn look(todo: &mut Vec<Summand>, part: Summand, node: Node) -> Result<(), NoMemory>
    ensures { OnOk result (todo.new.items ≡ todo.old.items ++ below part (Some node)) }
{
    if part.times == 0 {
        return Ok(());
    }
    match node {
        Node::Pick { yes, no, .. } => {
            let first = Summand {
                times: part.times,
                term: yes,
            };
            let second = Summand {
                times: part.times,
                term: no,
            };
            put_both(todo, first, second)
        }
        _ => Ok(()),
    }
}

/// Whether a sum has three terms or more, or sums below picks. Its only error is out of memory.
pub fn is_rich(bank: &Bank, parts: &[Summand]) -> Result<bool, NoMemory>
    requires bank { IsBank bank.now }
    requires parts { PartsAlike bank.now parts.now }
    ensures { IfOk result (λ rich. rich ≡ is_rich bank.now parts.now) }
{
    let count = parts.iter().filter(|part| part.times != 0).count();
    if count > 2 {
        return Ok(true);
    }
    has_sum(bank, parts)
}

/// The test of the first pick among the parts that are there at all.
pub fn first_test(bank: &Bank, parts: &[Summand]) -> Option<Id>
    requires bank { IsBank bank.now }
    requires parts { PartsAlike bank.now parts.now }
    ensures { result ≡ first_test bank.now parts.now }
{
    for part in parts {
        if let Some(test) = test_at(bank, *part) {
            return Some(test);
        }
    }
    None
}

/// The test of a part that is a pick, where it is there at all.
fn test_at(bank: &Bank, part: Summand) -> Option<Id>
    requires { Stands bank.now part.term }
    ensures { result ≡ test_at bank.now part }
{
    if part.times == 0 {
        return None;
    }
    match bank.node(part.term) {
        Node::Pick { test, .. } => Some(test),
        _ => None,
    }
}
