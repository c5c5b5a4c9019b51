//! What is found of terms by deciding them.

ghost use Rattle.std.specs.Prelude.{◌≡◌, ◌<◌, ◌^◌, true, false, length, All, IfOk};
ghost use Rattle.ygg_cert.specs.ygg_cnf.Steps.{IsLiteral};
ghost use Rattle.ygg_decide.specs.Deciding.{IsDecided};
ghost use Rattle.ygg_decide.specs.ygg_bank.Nodes.{HasWidth, Stands};
ghost use Rattle.ygg_certify.specs.Findings.{IsFinding, IsHeld};

use crate::literals::literals_may;
use std::alloc::Global;
use ygg_base::Text;
use ygg_cert::{Clause, Log, steps_may};
use ygg_certify_shorten::shorten;
use ygg_decide::{Bank, Book, Decided, Env, Id, clauses_of, decide};
use ygg_list::{NoMemory, Sequence};

/// What is found of a term by deciding it within a budget of learned clauses.
#[derive(Drop)]
pub enum Outcome {
    /// It is 1 in every environment: this log refutes its clauses, by chains that were made shorter.
    Holds(Log),
    /// It is 0 in this environment.
    Fails(Env),
    /// The whole budget was spent.
    Spent,
}

/// What is found of the term under a name.
#[derive(Drop)]
pub struct Finding {
    pub name: Text,
    /// How many clauses the term has.
    pub clauses: u64,
    pub outcome: Outcome,
}

/// What is found of terms, in order.
pub type Findings = Sequence<Finding>;

/// How many clauses there are, all of whose literals may stand in a certificate.
fn count(clauses: &[Clause]) -> u64
    requires { All (All (λ x. 0 < x.var)) clauses.now }
    ensures count { result ≡ length clauses.now }
    ensures few { result < 2 ^ 63 }
    ensures may { All (All IsLiteral) clauses.now }
{
    literals_may(clauses);
    clauses.len() as u64
}

/// What is found of the term under a name by deciding it; the log that refutes its clauses gets shorter chains. Its only error is out of memory.
fn found(
    alloc: Global,
    bank: &Bank,
    name: Text,
    term: Id,
    decided: Decided,
    budget: u32,
) -> Result<Finding, NoMemory>
    requires stands { Stands bank.now term }
    requires decided { IsDecided bank.now term budget decided }
    ensures { IfOk result (IsFinding bank.now budget name term) }
{
    let blasted = clauses_of(alloc, bank, term)?;
    let clauses = count(blasted.clauses().as_slice());
    // so the steps of a log over the clauses may stand in a certificate
    steps_may();
    let outcome = match decided {
        Decided::Valid(log) => Outcome::Holds(shorten(alloc, blasted.clauses(), log, budget)?),
        Decided::Fails(env) => Outcome::Fails(env),
        Decided::Spent(_log) => Outcome::Spent,
    };
    Ok(Finding {
        name,
        clauses,
        outcome,
    })
}

/// Decides the term under a name within a budget. Its only error is out of memory.
pub fn find<B: Book>(
    alloc: Global,
    bank: &mut Bank,
    rules: &B,
    name: &Text,
    term: Id,
    budget: u32,
) -> Result<Finding, NoMemory>
    requires width { HasWidth bank.old term 1 }
    requires budget { 0 < budget }
    ensures found { IfOk result (IsFinding bank.old budget name.now term) }
    ensures same { bank.new ≡ bank.old }
{
    let decided = decide(alloc, bank, rules, term, budget)?;
    let name = name.copy(alloc)?;
    found(alloc, bank, name, term, decided, budget)
}

/// Whether the term is 1 in every environment.
fn holds(finding: &Finding) -> bool
    ensures yes { result ≡ true → IsHeld finding.now }
    ensures no { result ≡ false → IsHeld finding.now → ⊥ }
{
    match &finding.outcome {
        Outcome::Holds(_) => true,
        Outcome::Fails(_) => false,
        Outcome::Spent => false,
    }
}

/// Whether each of the terms is 1 in every environment.
pub fn all_hold(findings: &[Finding]) -> bool
    ensures yes { result ≡ true → All IsHeld findings.now }
    ensures no { result ≡ false → All IsHeld findings.now → ⊥ }
{
    for finding in findings {
        if !holds(finding) {
            return false;
        }
    }
    true
}
