//! A layer file certified: its obligations decided, and their certificate put where all hold.

ghost use Rattle.std.specs.Prelude.{◌≡◌, ◌<◌, ◌≤◌, All, IfOk};
ghost use Rattle.ygg_base.specs.Outside.{Rose};
ghost use Rattle.ygg_certify.specs.ygg_bank.Nodes.{HasWidth};
ghost use Rattle.ygg_oblige.specs.Obligations.{names_in, terms_in};
ghost use Rattle.ygg_certify.specs.Certifying.{AreFound, Concludes, IsCertifying};

use crate::finding::{Findings, all_hold, find};
use crate::law::never_zero_holds;
use crate::putting::put_findings;
use std::alloc::Global;
use ygg_base::{Sink, Status};
use ygg_cert::{checked_is_refuted, derivations_are_sound, printed_is_checked};
use ygg_decide::{Bank, Book, clauses_mean_terms};
use ygg_list::NoMemory;
use ygg_oblige::{Obligation, obligations};
use ygg_oblige_laws::{refines_by_list, typed_histories};
use ygg_type::Typed;

/// What certifying a layer file comes to.
#[derive(Drop)]
pub enum Certifying {
    /// All obligations hold, and the command ends with this status: the certificate was put, or a front of it where the sink failed or no memory was left.
    Ends(Status),
    /// Not all obligations were found to hold, and nothing was put. This was found of each, in order.
    Open(Findings),
}

/// Decides obligations one after another, each within a budget. Its only error is out of memory.
fn find_all<B: Book>(
    alloc: Global,
    bank: &mut Bank,
    rules: &B,
    all: &[Obligation],
    budget: u32,
) -> Result<Findings, NoMemory>
    requires digits { All (λ o. HasWidth bank.old o.term 1) all.now }
    requires budget { 0 < budget }
    ensures found { IfOk result (AreFound bank.old budget (names_in all.now) (terms_in all.now)) }
    ensures same { bank.new ≡ bank.old }
{
    let mut findings = Findings::new(alloc);
    for o in all {
        let finding = find(alloc, bank, rules, &o.name, o.term, budget)?;
        findings.push(finding)?;
    }
    Ok(findings)
}

/// Puts the certificate of what was found, where all hold.
fn conclude<K: Sink>(alloc: Global, findings: Findings, sink: &mut K) -> Certifying
    ensures told { Concludes findings (K.taken sink.old) (K.taken sink.new) (Rose (K.faults sink.old) (K.faults sink.new)) result }
    ensures later { K.faults sink.old ≤ K.faults sink.new }
{
    if all_hold(findings.as_slice()) {
        Certifying::Ends(put_findings(alloc, sink, findings.as_slice()))
    } else {
        Certifying::Open(findings)
    }
}

/// Certifies a layer file: decides its obligations in order, each within a budget, and puts the certificate piece by piece where all hold. Nothing is put
/// before all are decided. The rules only make the terms smaller.
pub fn certify<B: Book, K: Sink>(
    alloc: Global,
    rules: &B,
    typed: &Typed,
    budget: u32,
    sink: &mut K,
) -> Certifying
    requires { 0 < budget }
    ensures told { IsCertifying (B.kinds rules.now) typed.now.file budget (K.taken sink.old) (K.taken sink.new)
        (Rose (K.faults sink.old) (K.faults sink.new)) result }
    ensures later { K.faults sink.old ≤ K.faults sink.new }
{
    let Ok(mut bank) = Bank::new(alloc) else {
        return Certifying::Ends(Status::NoMemory);
    };
    let Ok(all) = obligations(alloc, typed, &mut bank, rules) else {
        return Certifying::Ends(Status::NoMemory);
    };
    // the file has no type error, and derives
    let _ = typed.file();
    checked_is_refuted();
    printed_is_checked();
    derivations_are_sound();
    clauses_mean_terms();
    never_zero_holds();
    refines_by_list();
    typed_histories();
    let Ok(findings) = find_all(alloc, &mut bank, rules, all.as_slice(), budget) else {
        return Certifying::Ends(Status::NoMemory);
    };
    conclude(alloc, findings, sink)
}
