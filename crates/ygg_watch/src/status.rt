ghost use Rattle.ygg_watch.specs.Propagation.{IsWithin};
ghost use Rattle.ygg_watch.specs.Status.{IsStatus};

use crate::Assignments;
use ygg_cnf::Lit;
use ygg_cnf_set::PackedLit;

/// What is left of a clause: a true literal, two that are not assigned, one, or none.
#[derive(Clone, Copy)]
pub enum ClauseStatus {
    True(Lit),
    Open(Lit, Lit),
    Unit(Lit),
    False,
}

/// The status of a clause.
pub fn status_of(clause: &[PackedLit], trail: &Assignments) -> ClauseStatus
    requires { IsWithin trail.now.variable_count clause.now }
    ensures { IsStatus clause.now trail.now.entries.items result }
{
    let mut free = None;
    for lit in clause {
        let lit = lit.lit();
        if trail.is_true(lit) {
            return ClauseStatus::True(lit);
        }
        if !trail.is_false(lit) {
            match free {
                None => {
                    free = Some(lit);
                }
                Some(first) => {
                    if lit != first {
                        return ClauseStatus::Open(first, lit);
                    }
                }
            }
        }
    }
    match free {
        None => ClauseStatus::False,
        Some(lit) => ClauseStatus::Unit(lit),
    }
}
