//! The steps that are tried, in order.

use crate::lowering::{Group, Lowering, Place, Words};
use crate::step::Step;
use std::alloc::Global;
use ygg_base::{Bits, Numbers};
use ygg_list::NoMemory;
use ygg_replay::{Halt, Schedule};
use ygg_sched::Run;
use ygg_value::{Row, Shape, Value, Values, Word, row_read, shape_of, table_read, zero_row};

/// How many small numbers are tried in a number's place, from 0 up.
const SMALL: u64 = 10;

/// How many earlier stops are tried.
const EARLY: u64 = 16;

/// Adds the numbers of a row.
fn add_row(numbers: &mut Numbers, row: &Row, words: u8) -> Result<(), NoMemory> {
    for k in 0..words {
        let index = Word {
            width: 64,
            bits: k as u64,
        };
        let word = row_read(row, index);
        numbers.push(word.bits)?;
    }
    Ok(())
}

/// The numbers of a value's words, in order: of a table one row after another.
fn numbers_in(alloc: Global, value: &Value) -> Result<Numbers, NoMemory> {
    let mut numbers = Numbers::new(alloc);
    match value {
        Value::Word(word) => numbers.push(word.bits)?,
        Value::Row(row) => {
            if let Shape::Row { words, .. } = shape_of(value) {
                add_row(&mut numbers, row, words)?;
            }
        }
        Value::Table(table) => {
            if let Shape::Table { rows, words, width } = shape_of(value) {
                let mut row = zero_row(alloc, words, width)?;
                for k in 0..rows {
                    let index = Word {
                        width: 64,
                        bits: k as u64,
                    };
                    table_read(table, index, &mut row);
                    add_row(&mut numbers, &row, words)?;
                }
            }
        }
    }
    Ok(numbers)
}

/// Adds steps that lower words of which the greatest is this number to each small number below it.
fn add_smaller(list: &mut Vec<Step>, words: Words, number: u64) -> Result<(), NoMemory> {
    let most = if number < SMALL { number } else { SMALL };
    for to in 0..most {
        list.push(Step::Lower(Lowering { words, to }))?;
    }
    Ok(())
}

/// Adds the numbers of all words of a group.
fn add_numbers(alloc: Global, all: &mut Vec<u64>, values: &Values) -> Result<(), NoMemory> {
    for value in values.as_slice() {
        let numbers = numbers_in(alloc, value)?;
        for number in numbers.as_slice() {
            all.push(*number)?;
        }
    }
    Ok(())
}

/// Steps in which all words that are one number become a smaller one, the greatest number first.
pub fn equal_numbers(alloc: Global, schedule: &Schedule) -> Result<Vec<Step>, NoMemory> {
    let mut all = Vec::new(alloc);
    add_numbers(alloc, &mut all, &schedule.state)?;
    add_numbers(alloc, &mut all, &schedule.memory)?;
    add_numbers(alloc, &mut all, &schedule.low)?;
    add_numbers(alloc, &mut all, &schedule.args)?;
    all.sort()?;
    let mut list = Vec::new(alloc);
    let mut before: Option<u64> = None;
    for number in all.iter().rev() {
        if before != Some(*number) {
            add_smaller(&mut list, Words::Equal(*number), *number)?;
        }
        before = Some(*number);
    }
    Ok(list)
}

/// Adds steps in which a value of a group becomes zeros.
fn add_wholes(list: &mut Vec<Step>, values: &Values, group: Group) -> Result<(), NoMemory> {
    for k in 0..values.len() {
        list.push(Step::Lower(Lowering {
            words: Words::Whole(group, k),
            to: 0,
        }))?;
    }
    Ok(())
}

/// Steps in which a value becomes zeros.
pub fn whole_values(alloc: Global, schedule: &Schedule) -> Result<Vec<Step>, NoMemory> {
    let mut list = Vec::new(alloc);
    add_wholes(&mut list, &schedule.state, Group::State)?;
    add_wholes(&mut list, &schedule.memory, Group::Memory)?;
    add_wholes(&mut list, &schedule.low, Group::Low)?;
    add_wholes(&mut list, &schedule.args, Group::Arguments)?;
    Ok(list)
}

/// Steps in which the words at one place of all values below become a smaller number.
pub fn columns_below(alloc: Global, schedule: &Schedule) -> Result<Vec<Step>, NoMemory> {
    let mut list = Vec::new(alloc);
    if schedule.low.len() < 2 {
        return Ok(list);
    }
    let numbers = numbers_in(alloc, schedule.low.at(0))?;
    for (k, number) in numbers.as_slice().iter().enumerate() {
        add_smaller(&mut list, Words::Below(k), *number)?;
    }
    Ok(list)
}

/// Adds steps in which one word of a group becomes a smaller number.
fn add_words(
    alloc: Global,
    list: &mut Vec<Step>,
    values: &Values,
    group: Group,
) -> Result<(), NoMemory> {
    for (value, one) in values.as_slice().iter().enumerate() {
        let numbers = numbers_in(alloc, one)?;
        for (word, number) in numbers.as_slice().iter().enumerate() {
            let place = Place { group, value, word };
            add_smaller(list, Words::One(place), *number)?;
        }
    }
    Ok(())
}

/// Steps in which one word becomes a smaller number.
pub fn single_words(alloc: Global, schedule: &Schedule) -> Result<Vec<Step>, NoMemory> {
    let mut list = Vec::new(alloc);
    add_words(alloc, &mut list, &schedule.state, Group::State)?;
    add_words(alloc, &mut list, &schedule.memory, Group::Memory)?;
    add_words(alloc, &mut list, &schedule.low, Group::Low)?;
    add_words(alloc, &mut list, &schedule.args, Group::Arguments)?;
    Ok(list)
}

/// Adds steps in which a write that a run loses is kept.
fn add_kept(list: &mut Vec<Step>, bits: &Bits, run: Run) -> Result<(), NoMemory> {
    for (k, bit) in bits.as_slice().iter().enumerate() {
        if !*bit {
            list.push(Step::Keep(run, k))?;
        }
    }
    Ok(())
}

/// Steps in which a write that is lost is kept.
pub fn kept_writes(alloc: Global, schedule: &Schedule) -> Result<Vec<Step>, NoMemory> {
    let mut list = Vec::new(alloc);
    add_kept(&mut list, &schedule.picks, Run::Picks)?;
    add_kept(&mut list, &schedule.wake, Run::Wake)?;
    add_kept(&mut list, &schedule.other, Run::Other)?;
    Ok(list)
}

/// Adds a stop, with as many picks as a run on a disk takes to it at most, if the layer stands on the disk.
fn add_stop(list: &mut Vec<Step>, within: bool, event: u64, on_disk: bool) -> Result<(), NoMemory> {
    let most = if on_disk {
        event.saturating_add(within as u64)
    } else {
        u64::MAX
    };
    list.push(Step::Stop(Halt { within, event }, most as usize))?;
    Ok(())
}

/// Steps in which power fails earlier; between two calls rather than within one.
pub fn earlier_stops(
    alloc: Global,
    schedule: &Schedule,
    on_disk: bool,
) -> Result<Vec<Step>, NoMemory> {
    let mut list = Vec::new(alloc);
    let Some(stop) = schedule.stop else {
        return Ok(list);
    };
    let most = if stop.event < EARLY {
        stop.event
    } else {
        EARLY
    };
    for event in 0..most {
        add_stop(&mut list, false, event, on_disk)?;
    }
    if stop.within {
        add_stop(&mut list, false, stop.event, on_disk)?;
        if stop.event < EARLY {
            add_stop(&mut list, false, stop.event + 1, on_disk)?;
        }
        for event in 0..most {
            add_stop(&mut list, true, event, on_disk)?;
        }
    }
    Ok(list)
}
