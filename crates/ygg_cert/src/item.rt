//! What certificates are for, and what they are made of.

ghost use Rattle.std.specs.Prelude.{◌≡◌, [], IfOk};

use std::alloc::Global;
use std::marker::Model;
use ygg_base::Text;
use ygg_chain::Checker;
use ygg_cnf::{Clauses, Log};
use ygg_list::{NoMemory, Sequence};

/// Clauses that no assignment is to satisfy, under a name.
#[derive(Drop)]
pub struct Goal {
    pub name: Text,
    pub clauses: Clauses,
}

/// A goal whose clauses a checker holds.
#[derive(Drop)]
pub struct HeldGoal {
    pub name: Text,
    pub checker: Checker,
}

impl Model for HeldGoal {
    ghost use Rattle.ygg_cert.specs.declared.item.Goal.{Goal};

    ghost Value = { Goal };

    ghost view = { λ held. record { name = held.name; clauses = held.checker } };
}

impl HeldGoal {
    /// A goal's name and its clauses, held by a checker. Its only error is out of memory.
    pub fn of(alloc: Global, goal: &Goal) -> Result<HeldGoal, NoMemory>
        ensures { IfOk result (λ held. held ≡ goal.now) }
    {
        Ok(HeldGoal {
            name: goal.name.copy(alloc)?,
            checker: Checker::new(alloc, &goal.clauses)?,
        })
    }

    /// No clauses, under no name. It takes no memory.
    pub fn none(alloc: Global) -> HeldGoal
        ensures { result ≡ record { name = []; clauses = [] } }
    {
        HeldGoal {
            name: Text::new(alloc),
            checker: Checker::empty(alloc),
        }
    }
}

/// The goals that a certificate is wanted for, in order.
pub type Wanted = Sequence<Goal>;

/// A log over the clauses of a goal, with the goal's name and the number of its clauses.
#[derive(Drop)]
pub struct Item {
    pub name: Text,
    pub clauses: u64,
    pub log: Log,
}

/// The logs of a certificate, in order.
pub type CertItems = Sequence<Item>;
