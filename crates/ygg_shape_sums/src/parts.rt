//! Sums of terms, each so many times.

ghost use Rattle.std.specs.Prelude.{◌≡◌, ◌≤◌, ◌++◌, ◌∷◌, [], IfOk, OnOk, vec_len};
ghost use Rattle.std.specs.List.{insert};
ghost use Rattle.ygg_shape_sums.specs.Parts.{Sum, empty, with_number, with_part};

use std::alloc::Global;
use std::marker::Model;
use ygg_shape_words::{Id, NoMemory};

/// A term so many times.
#[derive(Clone, Copy, Drop)]
pub struct Summand {
    /// How many times, modulo 2 ^ 64.
    pub times: u64,
    /// The term.
    pub term: Id,
}

/// A number and terms, each so many times, all modulo 2 ^ 64.
#[derive(Drop)]
pub struct Total {
    // the number
    number: u64,
    // the terms
    parts: Vec<Summand>,
}

impl Model for Total {
    ghost use Rattle.ygg_shape_sums.specs.Parts.{Sum};

    ghost Value = { Sum };

    ghost view = { λ t. record { number = t.number; parts = t.parts.items } };
}

impl Total {
    /// A number, and no terms.
    pub fn new(alloc: Global, number: u64) -> Total
        ensures { result ≡ empty number }
    {
        Total {
            number,
            parts: Vec::new(alloc),
        }
    }

    /// No number, and these terms. Its only error is out of memory.
    pub fn of(alloc: Global, parts: &[Summand]) -> Result<Total, NoMemory>
        ensures { IfOk result (λ (sum : Sum). sum ≡ record { number = 0; parts = parts.now }) }
    {
        let parts = copied(alloc, parts)?;
        Ok(Total { number: 0, parts })
    }

    /// The number.
    pub fn number(&self) -> u64
        ensures { result ≡ self.now.number }
    {
        self.number
    }

    /// The terms, each so many times.
    pub fn parts(&self) -> &[Summand]
        ensures { result.now ≡ self.now.parts }
    {
        self.parts.as_slice()
    }

    /// The number is so much more.
    pub fn count(&mut self, number: u64)
        ensures { self.new ≡ with_number number self.old }
    {
        self.number = self.number.wrapping_add(number);
    }

    /// A term is there so many times more, before those of later places. Its only error is out of memory.
    pub fn add(&mut self, part: Summand) -> Result<(), NoMemory>
        ensures { OnOk result (self.new ≡ with_part part self.old) }
    {
        for place in 0..self.parts.len() {
            let known = self.parts[place];
            if known.term.0 == part.term.0 {
                self.parts[place] = Summand {
                    times: known.times.wrapping_add(part.times),
                    term: known.term,
                };
                return Ok(());
            }
            if part.term.0 < known.term.0 {
                return insert(&mut self.parts, place, part);
            }
        }
        put(&mut self.parts, part)
    }
}

/// A part, put after others. Its only error is out of memory.
pub fn put(parts: &mut Vec<Summand>, part: Summand) -> Result<(), NoMemory>
    ensures { OnOk result (parts.new.items ≡ parts.old.items ++ part ∷ []) }
{
    if parts.push(part).is_err() {
        return Err(NoMemory);
    }
    Ok(())
}

/// A part, put before the one at a place. Its only error is out of memory.
fn insert(parts: &mut Vec<Summand>, place: usize, part: Summand) -> Result<(), NoMemory>
    requires { place ≤ vec_len parts.old }
    ensures { OnOk result (parts.new.items ≡ insert parts.old.items place part) }
{
    if parts.insert(place, part).is_err() {
        return Err(NoMemory);
    }
    Ok(())
}

/// The items in a list of their own. Its only error is out of memory.
pub fn copied<T: Copy>(alloc: Global, items: &[T]) -> Result<Vec<T>, NoMemory>
    ensures { IfOk result (λ list. list.items ≡ items.now) }
{
    match Vec::from_slice(alloc, items) {
        Ok(list) => Ok(list),
        Err(_) => Err(NoMemory),
    }
}
