//! Shifts.

ghost use Rattle.std.specs.Prelude.{◌≡◌, ◌≤◌, ◌<◌, ◌^◌, ℕ, length, OnOk, IfOk};
ghost use Rattle.ygg_gates.specs.Rows.{joined_each, moved, near, shifted, shifted_near};

use crate::bits::{BitLiterals, copies, false_literal, moved};
use crate::comparisons::any;
use crate::pairs::join_each;
use crate::{Gate, Joint, Way};
use std::alloc::Global;
use ygg_cnf::Lit;
use ygg_list::NoMemory;

/// How many of an amount's bits k have 2 ^ k below the width.
#[tactic(auto, using(crate::proofs::Numbers::near_rules))]
fn near(width: usize, amount: &[Lit]) -> usize
    ensures count { result ≡ near width 0 amount.now }
    ensures within { result ≤ length amount.now }
    ensures below { (k : ℕ) → k < result → 2 ^ k < 2 ^ 64 }
{
    let mut count = 0;
    let mut rest = width.saturating_sub(1);
    while count < amount.len() && rest > 0 {
        count += 1;
        rest /= 2;
    }
    count
}

/// The value shifted by one bit of an amount, which has this place.
#[tactic(auto, using(crate::proofs::Numbers::place_below))]
fn shift_bit(
    alloc: Global,
    gates: &mut Vec<Gate>,
    way: Way,
    value: &[Lit],
    place: usize,
    bit: Lit,
) -> Result<BitLiterals, NoMemory>
    requires { 2 ^ place < 2 ^ 64 }
    ensures gates { OnOk result (gates.new.items ≡ (joined_each (Joint.Pick bit) (moved way (2 ^ place) value.now) value.now gates.old.items).gates) }
    ensures value { IfOk result (λ bits. bits ≡ (joined_each (Joint.Pick bit) (moved way (2 ^ place) value.now) value.now gates.old.items).value) }
{
    let moved = moved(alloc, way, 1 << place, value)?;
    join_each(
        alloc,
        gates,
        Joint::Pick { test: bit },
        moved.as_slice(),
        value,
    )
}

/// The value shifted by these bits of an amount, the lowest of all first.
fn shift_near(
    alloc: Global,
    gates: &mut Vec<Gate>,
    way: Way,
    first: BitLiterals,
    amount: &[Lit],
) -> Result<BitLiterals, NoMemory>
    requires { (k : ℕ) → k < length amount.now → 2 ^ k < 2 ^ 64 }
    ensures gates { OnOk result (gates.new.items ≡ (shifted_near way first 0 amount.now gates.old.items).gates) }
    ensures value { IfOk result (λ bits. bits ≡ (shifted_near way first 0 amount.now gates.old.items).value) }
{
    let mut value = first;
    for place in 0..amount.len() {
        value = shift_bit(alloc, gates, way, value.as_slice(), place, amount[place])?;
    }
    Ok(value)
}

/// The bits of a shift.
pub fn shift(
    alloc: Global,
    gates: &mut Vec<Gate>,
    way: Way,
    xs: &[Lit],
    amount: &[Lit],
) -> Result<BitLiterals, NoMemory>
    ensures gates { OnOk result (gates.new.items ≡ (shifted way xs.now amount.now gates.old.items).gates) }
    ensures value { IfOk result (λ bits. bits ≡ (shifted way xs.now amount.now gates.old.items).value) }
{
    let near = near(xs.len(), amount);
    let first = BitLiterals::from_slice(alloc, xs)?;
    let value = shift_near(alloc, gates, way, first, &amount[..near])?;
    let over = any(gates, false_literal(), &amount[near..])?;
    let within = copies(alloc, over.complement(), value.len())?;
    join_each(
        alloc,
        gates,
        Joint::And,
        value.as_slice(),
        within.as_slice(),
    )
}
