//! Each needed step derived again, in an order in which a clause mostly stands behind the one that brings the literal that it crosses out.

use crate::chain_builder::ChainBuilder;
use crate::lists::NONE;
use crate::needed::needed_steps;
use crate::rebuilt::Rebuilt;
use crate::refutation::Refutation;
use std::alloc::Global;
use ygg_list::NoMemory;

/// The needed steps of a refutation, derived again from the same clauses. Besides, a literal that is false at the beginning, by clauses of one literal, is
/// crossed out by a step of its own, which is the clause of its complement alone. Its only error is out of memory.
pub fn rebuild(alloc: Global, old: &Refutation) -> Result<Rebuilt, NoMemory> {
    let needed = needed_steps(alloc, old)?;
    let mut made = Rebuilt::new(alloc, old)?;
    let mut builder = ChainBuilder::new(alloc, old)?;
    for (step, is_needed) in needed.as_slice().iter().enumerate() {
        if *is_needed {
            rebuild_step(&mut builder, old, step, &mut made)?;
        } else {
            builder.number(NONE)?;
        }
    }
    Ok(made)
}

/// Derives a step again.
fn rebuild_step(
    builder: &mut ChainBuilder,
    old: &Refutation,
    step: usize,
    made: &mut Rebuilt,
) -> Result<(), NoMemory> {
    let chain = old.chains.at(step);
    builder.resolve(old, chain)?;
    builder.find_units(old, made)?;
    if let Some(first) = chain.first() {
        builder.order(old, *first, chain.len(), made)?;
    }
    let clause = old.clauses.at(old.given.saturating_add(step));
    let number = made.close(clause)?;
    builder.number(number)?;
    builder.note_unit(clause, number);
    builder.clear();
    Ok(())
}
