//! Comparisons.

ghost use Rattle.std.specs.Prelude.{◌≡◌, OnOk, IfOk};
ghost use Rattle.ygg_gates.specs.Rows.{any_bit, equal_bits, less, operation};

use crate::Gate;
use crate::bits::{BitLiterals, copies, true_literal};
use crate::pairs::{either, place};
use crate::sums::subtract;
use std::alloc::Global;
use ygg_cnf::Lit;
use ygg_list::NoMemory;
use ygg_value::Op;

/// AND, begun with a literal, of the complements of the XOR of each pair of bits.
pub fn equal(gates: &mut Vec<Gate>, first: Lit, xs: &[Lit], ys: &[Lit]) -> Result<Lit, NoMemory>
    ensures gates { OnOk result (gates.new.items ≡ (equal_bits first xs.now ys.now gates.old.items).gates) }
    ensures value { IfOk result (λ o. o ≡ (equal_bits first xs.now ys.now gates.old.items).value) }
{
    let mut so_far = first;
    for at in 0..xs.len().min(ys.len()) {
        let differs = place(
            gates,
            Gate::Xor {
                a: xs[at],
                b: ys[at],
            },
        )?;
        so_far = place(
            gates,
            Gate::And {
                a: so_far,
                b: differs.complement(),
            },
        )?;
    }
    Ok(so_far)
}

/// OR, begun with a literal, of the bits.
pub fn any(gates: &mut Vec<Gate>, first: Lit, bits: &[Lit]) -> Result<Lit, NoMemory>
    ensures gates { OnOk result (gates.new.items ≡ (any_bit first bits.now gates.old.items).gates) }
    ensures value { IfOk result (λ o. o ≡ (any_bit first bits.now gates.old.items).value) }
{
    let mut so_far = first;
    for at in 0..bits.len() {
        so_far = either(gates, so_far, bits[at])?;
    }
    Ok(so_far)
}

/// Whether the first operand is below the second.
pub fn less(alloc: Global, gates: &mut Vec<Gate>, xs: &[Lit], ys: &[Lit]) -> Result<Lit, NoMemory>
    ensures gates { OnOk result (gates.new.items ≡ (less xs.now ys.now gates.old.items).gates) }
    ensures value { IfOk result (λ o. o ≡ (less xs.now ys.now gates.old.items).value) }
{
    let difference = subtract(alloc, gates, xs, ys)?;
    Ok(difference.carry.complement())
}

/// The bit that says that the operands are equal.
pub fn is_equal(
    alloc: Global,
    gates: &mut Vec<Gate>,
    xs: &[Lit],
    ys: &[Lit],
) -> Result<BitLiterals, NoMemory>
    ensures gates { OnOk result (gates.new.items ≡ (operation Op.Eq xs.now ys.now gates.old.items).gates) }
    ensures value { IfOk result (λ bits. bits ≡ (operation Op.Eq xs.now ys.now gates.old.items).value) }
{
    let equal = equal(gates, true_literal(), xs, ys)?;
    copies(alloc, equal, 1)
}

/// The bit that says that the operands differ.
pub fn is_different(
    alloc: Global,
    gates: &mut Vec<Gate>,
    xs: &[Lit],
    ys: &[Lit],
) -> Result<BitLiterals, NoMemory>
    ensures gates { OnOk result (gates.new.items ≡ (operation Op.Ne xs.now ys.now gates.old.items).gates) }
    ensures value { IfOk result (λ bits. bits ≡ (operation Op.Ne xs.now ys.now gates.old.items).value) }
{
    let equal = equal(gates, true_literal(), xs, ys)?;
    copies(alloc, equal.complement(), 1)
}

/// The bit that says that the first operand is below the second.
pub fn is_less(
    alloc: Global,
    gates: &mut Vec<Gate>,
    xs: &[Lit],
    ys: &[Lit],
) -> Result<BitLiterals, NoMemory>
    ensures gates { OnOk result (gates.new.items ≡ (operation Op.Lt xs.now ys.now gates.old.items).gates) }
    ensures value { IfOk result (λ bits. bits ≡ (operation Op.Lt xs.now ys.now gates.old.items).value) }
{
    let less = less(alloc, gates, xs, ys)?;
    copies(alloc, less, 1)
}

/// The bit that says that the first operand is at least the second.
pub fn is_at_least(
    alloc: Global,
    gates: &mut Vec<Gate>,
    xs: &[Lit],
    ys: &[Lit],
) -> Result<BitLiterals, NoMemory>
    ensures gates { OnOk result (gates.new.items ≡ (operation Op.Ge xs.now ys.now gates.old.items).gates) }
    ensures value { IfOk result (λ bits. bits ≡ (operation Op.Ge xs.now ys.now gates.old.items).value) }
{
    let less = less(alloc, gates, xs, ys)?;
    copies(alloc, less.complement(), 1)
}
