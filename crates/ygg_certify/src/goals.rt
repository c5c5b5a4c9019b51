//! The goals of a layer file: the clauses of the terms of its obligations.

ghost use Rattle.std.specs.Prelude.{◌≡◌, All, IfOk};
ghost use Rattle.ygg_certify.specs.ygg_bank.Nodes.{HasWidth};
ghost use Rattle.ygg_certify.specs.FileGoals.{goal_in};

use std::alloc::Global;
use ygg_cert::{Checker, Goals, HeldGoal};
use ygg_decide::{Bank, put_clauses};
use ygg_list::NoMemory;
use ygg_oblige::Obligation;

/// Obligations with the bank of their terms. The clauses of a term are put into a checker when its goal is asked for, so that those of one obligation alone are
/// in memory.
#[derive(Drop)]
pub(crate) struct FileGoals<'a> {
    pub bank: &'a Bank,
    pub all: &'a [Obligation],
    ghost digits: { All (λ o. HasWidth bank.now o.term 1) all.now },
}

/// The clauses of an obligation's term, put into a checker. Its only error is out of memory.
fn goal_in(alloc: Global, bank: &Bank, o: &Obligation) -> Result<HeldGoal, NoMemory>
    requires { HasWidth bank.now o.now.term 1 }
    ensures { IfOk result (λ goal. goal ≡ goal_in bank.now o.now) }
{
    let name = o.name.copy(alloc)?;
    let mut checker = Checker::empty(alloc);
    put_clauses(alloc, bank, o.term, &mut checker)?;
    Ok(HeldGoal { name, checker })
}

impl Goals for FileGoals<'_> {
    ghost use Rattle.ygg_certify.specs.FileGoals.{goals_in};

    ghost wanted = { λ goals. goals_in goals.bank.now goals.all.now };

    fn goal(&self, alloc: Global, place: usize) -> Result<Option<HeldGoal>, NoMemory> {
        match self.all.get(place) {
            Some(o) => Ok(Some(goal_in(alloc, self.bank, o)?)),
            None => Ok(None),
        }
    }
}
