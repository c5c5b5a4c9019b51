//! Digits that need no gates.

ghost use Rattle.std.specs.Prelude.{◌≡◌, ◌++◌, ◌%◌, ◌==◌, if◌then◌else◌, replicate, OnOk, IfOk};
ghost use Rattle.ygg_gates.specs.Circuits.{complements, false_literal, true_literal};
ghost use Rattle.ygg_gates.specs.Groups.{lowest};
ghost use Rattle.ygg_gates.specs.Rows.{constant_bits, moved, resized_bits};

use crate::Way;
use std::alloc::Global;
use ygg_cnf::Lit;
use ygg_list::{NoMemory, Sequence};
use ygg_value::Word;

/// The literals of a word's bits, the lowest first.
pub type BitLiterals = Sequence<Lit>;

/// Variable 1, which is true.
pub fn true_literal() -> Lit
    ensures { result ≡ true_literal }
{
    Lit {
        var: 1,
        negated: false,
    }
}

/// The complement of variable 1.
pub fn false_literal() -> Lit
    ensures { result ≡ false_literal }
{
    true_literal().complement()
}

/// The lowest bit.
pub fn lowest(bits: &[Lit]) -> Lit
    ensures { result ≡ lowest bits.now }
{
    match bits.first() {
        Some(bit) => *bit,
        None => false_literal(),
    }
}

/// Adds a bit so many times.
pub fn repeat(bits: &mut BitLiterals, bit: Lit, times: usize) -> Result<(), NoMemory>
    ensures { OnOk result (bits.new ≡ bits.old ++ replicate times bit) }
{
    for _ in 0..times {
        bits.push(bit)?;
    }
    Ok(())
}

/// The bit so many times.
pub fn copies(alloc: Global, bit: Lit, times: usize) -> Result<BitLiterals, NoMemory>
    ensures { IfOk result (λ bits. bits ≡ replicate times bit) }
{
    let mut bits = BitLiterals::new(alloc);
    repeat(&mut bits, bit, times)?;
    Ok(bits)
}

/// The complement of each bit. Its only error is out of memory.
pub fn complements(alloc: Global, xs: &[Lit]) -> Result<BitLiterals, NoMemory>
    ensures { IfOk result (λ bits. bits ≡ complements xs.now) }
{
    let mut bits = BitLiterals::new(alloc);
    for x in xs {
        bits.push(x.complement())?;
    }
    Ok(bits)
}

/// The lowest bit of a number: true or false.
fn bit(number: u64) -> Lit
    ensures { result ≡ (if number % 2 == 1 then true_literal else false_literal) }
{
    if number % 2 == 1 {
        true_literal()
    } else {
        false_literal()
    }
}

/// The bits of a word: true or false. Its only error is out of memory.
#[tactic(auto, using(crate::proofs::Numbers::spelling_begins, crate::proofs::Numbers::spelling_goes, crate::proofs::Numbers::spelling_is))]
pub fn constant_bits(alloc: Global, word: Word) -> Result<BitLiterals, NoMemory>
    ensures { IfOk result (λ bits. bits ≡ constant_bits word.width word.bits) }
{
    let mut bits = BitLiterals::new(alloc);
    let mut rest = word.bits;
    for _ in 0..word.width {
        bits.push(bit(rest))?;
        rest /= 2;
    }
    Ok(bits)
}

/// The bits that are kept, then false. Its only error is out of memory.
pub fn resized(alloc: Global, xs: &[Lit], width: u8) -> Result<BitLiterals, NoMemory>
    ensures { IfOk result (λ bits. bits ≡ resized_bits width xs.now) }
{
    let width = width as usize;
    let mut bits = BitLiterals::from_slice(alloc, &xs[..width.min(xs.len())])?;
    repeat(&mut bits, false_literal(), width.saturating_sub(xs.len()))?;
    Ok(bits)
}

/// The bits moved by so many places, with false moved in.
pub fn moved(alloc: Global, way: Way, places: usize, xs: &[Lit]) -> Result<BitLiterals, NoMemory>
    ensures { IfOk result (λ bits. bits ≡ moved way places xs.now) }
{
    match way {
        Way::Up => moved_up(alloc, places, xs),
        Way::Down => moved_down(alloc, places, xs),
    }
}

/// The bits moved towards the high ones.
fn moved_up(alloc: Global, places: usize, xs: &[Lit]) -> Result<BitLiterals, NoMemory>
    ensures { IfOk result (λ bits. bits ≡ moved Way.Up places xs.now) }
{
    let mut bits = copies(alloc, false_literal(), places)?;
    bits.extend_from_slice(&xs[..xs.len().saturating_sub(places)])?;
    Ok(bits)
}

/// The bits moved towards the low ones.
fn moved_down(alloc: Global, places: usize, xs: &[Lit]) -> Result<BitLiterals, NoMemory>
    ensures { IfOk result (λ bits. bits ≡ moved Way.Down places xs.now) }
{
    let mut bits = BitLiterals::from_slice(alloc, &xs[places.min(xs.len())..])?;
    repeat(&mut bits, false_literal(), places)?;
    Ok(bits)
}
