//! From an environment to the numbers that it gives.

ghost use Rattle.std.specs.Prelude.{◌≡◌, ◌≤◌, ◌==◌, ℕ, if◌then◌else◌, length, map, IfOk, OnOk};
ghost use Rattle.ygg_oblige_laws.specs.ygg_bank.Values.{inputs_of};
ghost use Rattle.ygg_oblige_given.specs.Ones.{given_over, is_one, number_at};
ghost use Rattle.ygg_oblige_given.specs.Tables.{inputs_in};

use crate::table::InputTable;
use std::alloc::Global;
use ygg_list::NoMemory;
use ygg_oblige_laws::{Env, Given};

/// Makes room for so many numbers, with zeros. Its only error is out of memory.
fn make_room(numbers: &mut Vec<u64>, room: usize) -> Result<(), NoMemory>
    ensures ok { OnOk result (room ≤ length numbers.new.items) }
    ensures same { (n : ℕ) → number_at numbers.new.items n ≡ number_at numbers.old.items n }
{
    if numbers.len() < room {
        numbers.resize(room, 0)?;
    }
    Ok(())
}

/// Puts a number at a place, behind zeros where the list ends before it. Its only error is out of memory, after which the numbers are as before.
fn put(numbers: &mut Vec<u64>, place: u64, number: u64) -> Result<(), NoMemory>
    ensures ok { OnOk result ((n : ℕ) → number_at numbers.new.items n ≡ (if place == n then number else number_at numbers.old.items n)) }
{
    let at = place as usize;
    let Some(room) = at.checked_add(1) else {
        return Err(NoMemory);
    };
    make_room(numbers, room)?;
    numbers[at] = number;
    Ok(())
}

/// Puts what an item of an environment gives over other numbers. Its only error is out of memory.
fn put_given(numbers: &mut Vec<u64>, given: Given) -> Result<(), NoMemory>
    ensures { OnOk result ((n : ℕ) → number_at numbers.new.items n ≡ given_over given (number_at numbers.old.items) n) }
{
    match given {
        Given::Word { number, word } => put(numbers, number, word.bits),
    }
}

/// The numbers that an environment gives. Its only error is out of memory.
fn numbers_of(alloc: Global, env: &Env) -> Result<Vec<u64>, NoMemory>
    ensures { IfOk result (λ numbers. (n : ℕ) → number_at numbers.items n ≡ inputs_of env.now n) }
{
    let mut numbers = Vec::new(alloc);
    let all = env.as_slice();
    for i in (0..all.len()).rev() {
        put_given(&mut numbers, all[i])?;
    }
    Ok(numbers)
}

/// Which of these numbers are 1. Its only error is out of memory.
fn ones(alloc: Global, numbers: &[u64]) -> Result<Vec<bool>, NoMemory>
    ensures { IfOk result (λ bits. bits.items ≡ map is_one numbers.now) }
{
    let mut bits = Vec::new(alloc);
    for number in numbers {
        bits.push(*number == 1)?;
    }
    Ok(bits)
}

impl InputTable {
    /// What an environment gives. Its only error is out of memory.
    pub fn new(alloc: Global, env: &Env) -> Result<InputTable, NoMemory>
        ensures { IfOk result (λ table. inputs_in table ≡ inputs_of env.now) }
    {
        let numbers = numbers_of(alloc, env)?;
        let bits = ones(alloc, numbers.as_slice())?;
        Ok(InputTable { numbers, bits })
    }

    /// The number of an input.
    pub fn number(&self, input: u64) -> u64
        ensures { result ≡ inputs_in self.now input }
    {
        self.numbers.get(input as usize).copied().unwrap_or(0)
    }
}
