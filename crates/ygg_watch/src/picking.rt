//! Which variable to decide next.

ghost use Rattle.std.specs.Prelude.{◌<◌, ℕ, IfSome, IfNone};
ghost use Rattle.ygg_watch.specs.Trail.{IsAssigned};

use crate::Order;
use crate::propagate::Propagate;

/// The most active variable that is not assigned, if the order has one.
fn propose<P: Propagate>(propagation: &P, order: &mut Order, variable_count: u64) -> Option<u64>
    ensures { IfSome result (λ var. (var < variable_count) × (IsAssigned (P.state propagation.now).trail var → ⊥)) }
{
    for _ in 0..variable_count {
        let var = order.take()? as u64;
        if var < variable_count && propagation.assigned(var).is_none() {
            return Some(var);
        }
    }
    None
}

/// An unassigned variable below `variable_count`, if there is one.
pub fn pick<P: Propagate>(propagation: &P, order: &mut Order, variable_count: u64) -> Option<u64>
    ensures some { IfSome result (λ var. (var < variable_count) × (IsAssigned (P.state propagation.now).trail var → ⊥)) }
    ensures none { IfNone result ((var : ℕ) → var < variable_count → IsAssigned (P.state propagation.now).trail var) }
{
    if let Some(var) = propose(propagation, order, variable_count) {
        return Some(var);
    }
    for var in 0..variable_count {
        match propagation.assigned(var) {
            None => {
                return Some(var);
            }
            Some(_) => {}
        }
    }
    None
}
