ghost use Rattle.std.specs.Prelude.{◌≡◌, ◌<◌, IfOk};
ghost use Rattle.ygg_blast.specs.ygg_bank.Nodes.{HasWidth};
ghost use Rattle.ygg_blast.specs.ygg_gates.Groups.{translated};
ghost use Rattle.ygg_blast.specs.ygg_gates.Laws.{AreExact};
ghost use Rattle.ygg_solver.specs.Answers.{IsNumbered};
ghost use Rattle.ygg_decide.specs.Deciding.{IsDecided, IsSound};

use std::alloc::Global;
use ygg_blast::{
    Bank, Blasted, Book, Env, Id, Log, NoMemory, clauses_of, derivations_are_sound, environment_of,
};
use ygg_solver::{Answer, solve_owned};

/// What deciding a term within a budget of learned clauses comes to.
#[derive(Drop)]
pub enum Decided {
    /// The term is 1 in every environment: this log, of at most as many clauses as the budget says, refutes its clauses.
    Valid(Log),
    /// The term is 0 in this environment.
    Fails(Env),
    /// This log has as many clauses as the budget says, derived from the term's clauses, each of which teaches.
    Spent(Log),
}

/// Decides whether a term of width 1 is 1 in every environment, by at most `budget` learned clauses. It leaves the bank as it was.
/// Its only error is out of memory.
pub fn decide<B: Book>(
    alloc: Global,
    bank: &mut Bank,
    _book: &B,
    term: Id,
    budget: u32,
) -> Result<Decided, NoMemory>
    requires width { HasWidth bank.old term 1 }
    requires budget { 0 < budget }
    ensures decided { IfOk result (IsDecided bank.old term budget) }
    ensures sound { IfOk result (IsSound bank.old term) }
    ensures same { bank.new ≡ bank.old }
{
    decide_in(alloc, bank, term, budget)
}

/// The same in a bank that is only looked at.
fn decide_in(alloc: Global, bank: &Bank, term: Id, budget: u32) -> Result<Decided, NoMemory>
    requires width { HasWidth bank.now term 1 }
    requires budget { 0 < budget }
    ensures decided { IfOk result (IsDecided bank.now term budget) }
    ensures sound { IfOk result (IsSound bank.now term) }
{
    let blasted = clauses_of(alloc, bank, term)?;
    decide_blasted(alloc, bank, blasted, term, budget)
}

/// The same by the term's clauses, whose memory is given back before the search begins.
fn decide_blasted(
    alloc: Global,
    bank: &Bank,
    blasted: Blasted,
    term: Id,
    budget: u32,
) -> Result<Decided, NoMemory>
    requires width { HasWidth bank.now term 1 }
    requires budget { 0 < budget }
    requires form { blasted ≡ translated bank.now term }
    requires exactly { AreExact bank.now term blasted.clauses }
    requires numbered { IsNumbered blasted.clauses }
    ensures decided { IfOk result (IsDecided bank.now term budget) }
    ensures sound { IfOk result (IsSound bank.now term) }
{
    // the bank's nodes stand in order, and a refutation is sound
    let _ = bank.len();
    derivations_are_sound();
    let (clauses, sources) = blasted.into_parts();
    match solve_owned(alloc, clauses, budget)? {
        Answer::Sat(assignment) => Ok(Decided::Fails(environment_of(
            alloc,
            &sources,
            &assignment,
        )?)),
        Answer::Unsat(log) => Ok(Decided::Valid(log)),
        Answer::Spent(log) => Ok(Decided::Spent(log)),
    }
}
