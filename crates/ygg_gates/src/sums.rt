//! Sums, differences and products.

ghost use Rattle.std.specs.Prelude.{◌≡◌, OnOk, IfOk};
ghost use Rattle.ygg_gates.specs.Rows.{added, added_bit, multiplied, multiplied_bit, subtracted};

use crate::bits::{BitLiterals, complements, copies, false_literal, moved, true_literal};
use crate::pairs::{either, join_each, place};
use crate::{Carried, Gate, Joint, Way};
use std::alloc::Global;
use ygg_cnf::Lit;
use ygg_list::NoMemory;

/// The bits of a sum, and its last carry.
#[derive(Drop)]
pub struct Added {
    pub bits: BitLiterals,
    pub carry: Lit,
}

/// A bit of a sum, and the next carry.
fn add_bit(gates: &mut Vec<Gate>, a: Lit, b: Lit, carry: Lit) -> Result<Carried, NoMemory>
    ensures gates { OnOk result (gates.new.items ≡ (added_bit a b carry gates.old.items).gates) }
    ensures value { IfOk result (λ one. one ≡ (added_bit a b carry gates.old.items).value) }
{
    let one = place(gates, Gate::Xor { a, b })?;
    let bit = place(gates, Gate::Xor { a: one, b: carry })?;
    let both = place(gates, Gate::And { a, b })?;
    let through = place(gates, Gate::And { a: one, b: carry })?;
    let carry = either(gates, both, through)?;
    Ok(Carried { bit, carry })
}

/// A sum with this carry.
pub fn add(
    alloc: Global,
    gates: &mut Vec<Gate>,
    xs: &[Lit],
    ys: &[Lit],
    carry: Lit,
) -> Result<Added, NoMemory>
    ensures gates { OnOk result (gates.new.items ≡ (added xs.now ys.now carry gates.old.items).gates) }
    ensures bits { IfOk result (λ sum. sum.bits ≡ (added xs.now ys.now carry gates.old.items).value.bits) }
    ensures carry { IfOk result (λ sum. sum.carry ≡ (added xs.now ys.now carry gates.old.items).value.carry) }
{
    let mut bits = BitLiterals::new(alloc);
    let mut carry = carry;
    for place in 0..xs.len().min(ys.len()) {
        let one = add_bit(gates, xs[place], ys[place], carry)?;
        bits.push(one.bit)?;
        carry = one.carry;
    }
    Ok(Added { bits, carry })
}

/// A difference, whose last carry is true where the first operand is at least the second.
pub fn subtract(
    alloc: Global,
    gates: &mut Vec<Gate>,
    xs: &[Lit],
    ys: &[Lit],
) -> Result<Added, NoMemory>
    ensures gates { OnOk result (gates.new.items ≡ (subtracted xs.now ys.now gates.old.items).gates) }
    ensures bits { IfOk result (λ sum. sum.bits ≡ (subtracted xs.now ys.now gates.old.items).value.bits) }
    ensures carry { IfOk result (λ sum. sum.carry ≡ (subtracted xs.now ys.now gates.old.items).value.carry) }
{
    let others = complements(alloc, ys)?;
    add(alloc, gates, xs, others.as_slice(), true_literal())
}

/// What a bit of the second operand, at this place, makes of the sum so far.
fn multiply_bit(
    alloc: Global,
    gates: &mut Vec<Gate>,
    xs: &[Lit],
    so_far: &[Lit],
    place: usize,
    bit: Lit,
) -> Result<BitLiterals, NoMemory>
    ensures gates { OnOk result (gates.new.items ≡ (multiplied_bit xs.now so_far.now place bit gates.old.items).gates) }
    ensures value { IfOk result (λ sum. sum ≡ (multiplied_bit xs.now so_far.now place bit gates.old.items).value) }
{
    let bits = copies(alloc, bit, xs.len())?;
    let moved = moved(alloc, Way::Up, place, xs)?;
    let part = join_each(alloc, gates, Joint::And, bits.as_slice(), moved.as_slice())?;
    let sum = add(alloc, gates, so_far, part.as_slice(), false_literal())?;
    Ok(sum.bits)
}

/// The bits of a product.
#[tactic(auto, using(crate::proofs::Steps::multiplied_rules))]
pub fn multiply(
    alloc: Global,
    gates: &mut Vec<Gate>,
    xs: &[Lit],
    first: BitLiterals,
    ys: &[Lit],
) -> Result<BitLiterals, NoMemory>
    ensures gates { OnOk result (gates.new.items ≡ (multiplied xs.now first 0 ys.now gates.old.items).gates) }
    ensures value { IfOk result (λ bits. bits ≡ (multiplied xs.now first 0 ys.now gates.old.items).value) }
{
    let mut sum = first;
    for place in 0..ys.len() {
        sum = multiply_bit(alloc, gates, xs, sum.as_slice(), place, ys[place])?;
    }
    Ok(sum)
}
