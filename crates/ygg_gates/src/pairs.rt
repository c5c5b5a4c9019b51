//! One gate, and one gate for each bit.

ghost use Rattle.std.specs.Prelude.{◌≡◌, OnOk, IfOk};
ghost use Rattle.ygg_gates.specs.Circuits.{either, placed};
ghost use Rattle.ygg_gates.specs.Rows.{free_bits, joined, joined_each};

use crate::bits::BitLiterals;
use crate::{Gate, Joint};
use std::alloc::Global;
use ygg_cnf::Lit;
use ygg_list::NoMemory;

/// One more gate, and the literal of its variable.
pub fn place(gates: &mut Vec<Gate>, gate: Gate) -> Result<Lit, NoMemory>
    ensures gates { OnOk result (gates.new.items ≡ (placed gate gates.old.items).gates) }
    ensures value { IfOk result (λ o. o ≡ (placed gate gates.old.items).value) }
{
    let var = gates.len() as u64 + 2;
    gates.push(gate)?;
    Ok(Lit {
        var,
        negated: false,
    })
}

/// OR of two literals.
pub fn either(gates: &mut Vec<Gate>, a: Lit, b: Lit) -> Result<Lit, NoMemory>
    ensures gates { OnOk result (gates.new.items ≡ (either a b gates.old.items).gates) }
    ensures value { IfOk result (λ o. o ≡ (either a b gates.old.items).value) }
{
    let neither = place(
        gates,
        Gate::And {
            a: a.complement(),
            b: b.complement(),
        },
    )?;
    Ok(neither.complement())
}

/// The gate of two bits.
pub fn join(gates: &mut Vec<Gate>, joint: Joint, a: Lit, b: Lit) -> Result<Lit, NoMemory>
    ensures gates { OnOk result (gates.new.items ≡ (joined joint a b gates.old.items).gates) }
    ensures value { IfOk result (λ o. o ≡ (joined joint a b gates.old.items).value) }
{
    match joint {
        Joint::And => place(gates, Gate::And { a, b }),
        Joint::Or => either(gates, a, b),
        Joint::Xor => place(gates, Gate::Xor { a, b }),
        Joint::Pick { test } => place(
            gates,
            Gate::Mux {
                test,
                yes: a,
                no: b,
            },
        ),
    }
}

/// The gate for each pair of bits, at the end of the list. Its only error is out of memory, after which there may be more gates.
pub fn join_each(
    alloc: Global,
    gates: &mut Vec<Gate>,
    joint: Joint,
    xs: &[Lit],
    ys: &[Lit],
) -> Result<BitLiterals, NoMemory>
    ensures gates { OnOk result (gates.new.items ≡ (joined_each joint xs.now ys.now gates.old.items).gates) }
    ensures value { IfOk result (λ bits. bits ≡ (joined_each joint xs.now ys.now gates.old.items).value) }
{
    let mut bits = BitLiterals::new(alloc);
    for place in 0..xs.len().min(ys.len()) {
        let bit = join(gates, joint, xs[place], ys[place])?;
        bits.push(bit)?;
    }
    Ok(bits)
}

/// So many new variables, whose gates are at the end of the list. Its only error is out of memory, after which there may be more gates.
#[tactic(auto, using(crate::proofs::Steps::free_begins, crate::proofs::Steps::free_goes, crate::proofs::Steps::free_value, crate::proofs::Steps::free_gates))]
pub fn free_bits(alloc: Global, gates: &mut Vec<Gate>, width: u8) -> Result<BitLiterals, NoMemory>
    ensures gates { OnOk result (gates.new.items ≡ (free_bits width gates.old.items).gates) }
    ensures value { IfOk result (λ bits. bits ≡ (free_bits width gates.old.items).value) }
{
    let mut bits = BitLiterals::new(alloc);
    for _ in 0..width {
        let bit = place(gates, Gate::Free)?;
        bits.push(bit)?;
    }
    Ok(bits)
}
