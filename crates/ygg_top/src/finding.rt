//! What is found of one obligation.

ghost use Rattle.std.specs.Prelude.{◌≡◌, ◌<◌, ◌≤◌, IfOk, IfErr};
ghost use Rattle.ygg_base.specs.Outside.{Rose};
ghost use Rattle.ygg_certify.specs.ygg_bank.Nodes.{HasWidth};
ghost use Rattle.ygg_top.specs.ygg_report.Lines.{verdict_line};
ghost use Rattle.ygg_top.specs.ygg_report.Putting.{Adds};
ghost use Rattle.ygg_top.specs.Findings.{IsFound, IsKept, IsUnreported};

use std::alloc::Global;
use ygg_base::{NoMemory, Sink, Status, Text};
use ygg_certify::{Bank, Decided, Env, Id, decide};
use ygg_oblige_reading::{Book, Obligation};
use ygg_top_command::{Verdict, line, put};

/// What is found of an obligation.
#[derive(Drop)]
pub struct Decision {
    /// The verdict.
    pub verdict: Verdict,
    /// An environment in which its term is 0, where it fails.
    pub env: Option<Env>,
}

/// Decides an obligation's term within a budget. Its only error is out of memory.
pub fn found<B: Book>(
    alloc: Global,
    bank: &mut Bank,
    rules: &B,
    term: Id,
    budget: u32,
) -> Result<Decision, NoMemory>
    requires width { HasWidth bank.old term 1 }
    requires budget { 0 < budget }
    ensures found { IfOk result (λ f. IsFound bank.old term budget f.verdict) }
    ensures kept { IfOk result (λ f. IsKept bank.old term f.verdict f.env) }
    ensures same { bank.new ≡ bank.old }
{
    match decide(alloc, bank, rules, term, budget)? {
        Decided::Valid(_log) => Ok(Decision {
            verdict: Verdict::Holds,
            env: None,
        }),
        Decided::Fails(env) => Ok(Decision {
            verdict: Verdict::Fails,
            env: Some(env),
        }),
        Decided::Spent(_log) => Ok(Decision {
            verdict: Verdict::Spent(budget),
            env: None,
        }),
    }
}

/// Decides an obligation within a budget and puts its line; or the status with which the command ends, where no memory is left or the sink fails.
pub fn report<B: Book, K: Sink>(
    alloc: Global,
    bank: &mut Bank,
    rules: &B,
    obligation: &Obligation,
    budget: u32,
    sink: &mut K,
) -> Result<Decision, Status>
    requires width { HasWidth bank.old obligation.now.term 1 }
    requires budget { 0 < budget }
    ensures found { IfOk result (λ f. IsFound bank.old obligation.now.term budget f.verdict) }
    ensures kept { IfOk result (λ f. IsKept bank.old obligation.now.term f.verdict f.env) }
    ensures put { IfOk result (λ f. Adds (K.taken sink.old) (verdict_line f.verdict obligation.now.name) (K.taken sink.new)) }
    ensures unreported { IfErr result (IsUnreported bank.old obligation.now.term obligation.now.name budget (K.taken sink.old) (K.taken sink.new)
        (Rose (K.faults sink.old) (K.faults sink.new))) }
    ensures same { bank.new ≡ bank.old }
    ensures later { K.faults sink.old ≤ K.faults sink.new }
{
    let Ok(finding) = found(alloc, bank, rules, obligation.term, budget) else {
        return Err(Status::NoMemory);
    };
    let Ok(text) = line(alloc, &finding.verdict, &obligation.name) else {
        return Err(Status::NoMemory);
    };
    match put(sink, text.as_slice()) {
        Ok(()) => Ok(finding),
        Err(status) => Err(status),
    }
}
