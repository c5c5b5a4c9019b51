use std::alloc::Global;
use ygg_cnf_set::PackedClause;
use ygg_list::NoMemory;
use ygg_watch::{InitialPolarity, Order};

/// Lets each clause vote for the values of its variables.
fn vote(polarity: &mut InitialPolarity, clauses: &[PackedClause]) {
    for clause in clauses {
        let lits = clause.as_slice();
        for lit in lits {
            let lit = lit.lit();
            polarity.vote(lit.var as usize, !lit.negated, lits.len());
        }
    }
}

/// Gives each variable below `size` its initial polarity.
fn set_polarity(order: &mut Order, polarity: &InitialPolarity, size: usize) {
    for var in 0..size {
        order.set_polarity(var, polarity.value(var));
    }
}

/// The order of variables below `size` before the first conflict: none is active, and each has the initial polarity that the clauses speak for. Its
/// only error is out of memory.
pub fn order_for(alloc: Global, clauses: &[PackedClause], size: usize) -> Result<Order, NoMemory> {
    let mut polarity = InitialPolarity::new(alloc, size)?;
    vote(&mut polarity, clauses);
    let mut order = Order::new(alloc, size)?;
    set_polarity(&mut order, &polarity, size);
    Ok(order)
}
