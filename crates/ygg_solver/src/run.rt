ghost use Rattle.std.specs.Prelude.{◌≡◌, ◌<◌, ℕ, length, IfSome, IfNone};
ghost use Rattle.ygg_watch.specs.Trail.{IsQuietBefore, IsAssigned};
ghost use Rattle.ygg_watch.specs.Propagation.{IsConflict};
ghost use Rattle.ygg_solver.specs.Kept.{IsReady};

use ygg_cnf::Lit;
use ygg_watch::{Found, Order, Propagate, pick};

/// Decides and propagates until a clause is false, whose number it gives, or each variable is assigned. It ends since each
/// turn assigns a variable.
pub fn to_conflict<P: Propagate>(
    propagation: &mut P,
    order: &mut Order,
    variable_count: u64,
) -> Option<u64>
    requires variable_count { variable_count ≡ (P.state propagation.old).variable_count }
    requires ready { IsReady (P.state propagation.old) }
    ensures ready { IsReady (P.state propagation.new) }
    ensures same { (P.state propagation.new).clauses ≡ (P.state propagation.old).clauses }
    ensures variable_count { (P.state propagation.new).variable_count ≡ (P.state propagation.old).variable_count }
    ensures model { IfNone result (IsQuietBefore (P.state propagation.new).clauses (P.state propagation.new).trail
        (length (P.state propagation.new).trail) × ((var : ℕ) → var < variable_count → IsAssigned (P.state propagation.new).trail var)) }
    ensures conflict { IfSome result (λ id. IsConflict (P.state propagation.new).clauses (P.state propagation.new).trail id) }
{
    loop {
        match propagation.spread() {
            Found::False(id) => {
                return Some(id);
            }
            Found::Quiet => match pick(propagation, order, variable_count) {
                None => {
                    return None;
                }
                Some(var) => {
                    let negated = !order.phase(var as usize);
                    propagation.decide(Lit { var, negated });
                }
            },
        }
    }
}
