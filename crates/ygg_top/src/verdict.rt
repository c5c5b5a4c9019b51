//! The verdicts on a file's obligations, each put as soon as it is found.

ghost use Rattle.std.specs.Prelude.{◌≡◌, ◌<◌, ◌≤◌, ◌||◌, length, IfOk, IfErr, IfSome};
ghost use Rattle.ygg_base.specs.Outside.{Rose};
ghost use Rattle.ygg_certify.specs.ygg_bank.Values.{inputs_of};
ghost use Rattle.ygg_yard.specs.ygg_meaning.Claims.{claims_of};
ghost use Rattle.ygg_oblige_reading.specs.Obligations.{names_in};
ghost use Rattle.ygg_oblige_reading.specs.Meant.{FitsTerms};
ghost use Rattle.ygg_top.specs.ygg_report.Tallies.{finds_spent};
ghost use Rattle.ygg_top.specs.Verdict.{refutation};
ghost use Rattle.ygg_top.specs.Verifying.{Streams};
ghost use Rattle.ygg_top.specs.Findings.{
  AreDigits,
  AreMadeIn,
  IsConcluded,
  IsEnd,
  IsFitting,
  IsRefuting,
  IsRefutingBy,
  IsReported,
  IsStopped,
  first_kept,
};

use crate::finding::{Decision, report};
use std::alloc::Global;
use ygg_base::{NoMemory, Sink, Status, Text};
use ygg_certify::{Bank, Env};
use ygg_oblige_reading::{Book, Obligation, obligations};
use ygg_plain::plain_at;
use ygg_sched::{Schedule, print_schedule};
use ygg_sched_names::{file_schedules, one_ending, printed_shows};
use ygg_top_command::{Verdict, put_all, refuted, undecided, verified};
use ygg_top_status::status_by;
use ygg_type::Typed;
use ygg_yard::{refines_by_list, typed_histories};

/// What is kept of an obligation that fails.
#[derive(Drop)]
pub struct Refutation {
    /// Its place among the file's.
    pub place: usize,
    /// An environment in which its term is 0.
    pub env: Env,
}

/// What was found of obligations so far.
#[derive(Drop)]
pub struct Summary {
    /// The first one that fails.
    pub refuted: Option<Refutation>,
    /// Whether the budget was spent on one.
    pub spent: bool,
}

/// The first refutation: the one that is known, or else the one of an obligation at a place, where there is an environment.
fn first_kept(known: Option<Refutation>, env: Option<Env>, place: usize) -> Option<Refutation>
    ensures { result ≡ first_kept known env place }
{
    match known {
        Some(refutation) => Some(refutation),
        None => match env {
            Some(env) => Some(Refutation { place, env }),
            None => None,
        },
    }
}

/// The summary with one more obligation, at a place.
fn counted(summary: Summary, finding: Decision, place: usize) -> Summary
    ensures refuted { result.refuted ≡ first_kept summary.refuted finding.env place }
    ensures spent { result.spent ≡ (summary.spent || finds_spent finding.verdict) }
{
    let spends = matches!(finding.verdict, Verdict::Spent(_));
    Summary {
        refuted: first_kept(summary.refuted, finding.env, place),
        spent: summary.spent || spends,
    }
}

/// Decides obligations one after another, each within a budget, and puts their lines; or the status with which the command ends, where no memory is
/// left or the sink fails.
fn report_all<B: Book, K: Sink>(
    alloc: Global,
    bank: &mut Bank,
    rules: &B,
    all: &[Obligation],
    budget: u32,
    sink: &mut K,
) -> Result<Summary, Status>
    requires digits { AreDigits bank.old all.now }
    requires budget { 0 < budget }
    ensures reported { IfOk result (IsReported bank.old budget all.now (K.taken sink.old) (K.taken sink.new) (length all.now)) }
    ensures stopped { IfErr result (IsStopped bank.old budget all.now (K.taken sink.old) (K.taken sink.new)
        (Rose (K.faults sink.old) (K.faults sink.new))) }
    ensures same { bank.new ≡ bank.old }
    ensures later { K.faults sink.old ≤ K.faults sink.new }
{
    let mut summary = Summary {
        refuted: None,
        spent: false,
    };
    let mut place = 0;
    for o in all {
        let finding = match report(alloc, bank, rules, o, budget, sink) {
            Ok(finding) => finding,
            Err(status) => return Err(status),
        };
        summary = counted(summary, finding, place);
        place += 1;
    }
    Ok(summary)
}

/// The line of an obligation of a name that fails, and the text of a schedule. Its only error is out of memory.
fn refuted_with(
    alloc: Global,
    typed: &Typed,
    name: &Text,
    named: &Schedule,
) -> Result<Text, NoMemory>
    ensures { IfOk result (λ text. text ≡ refutation typed.now.file name.now named.now) }
{
    let written = print_schedule(alloc, named, typed)?;
    let mut text = refuted(alloc, name)?;
    text.extend_from_slice(written.as_slice())?;
    Ok(text)
}

/// What is printed of the obligation of a name and a place that fails: its line, and the text of a plain schedule in place of the one that the environment
/// names. Its only error is out of memory.
pub fn refuted_by<B: Book>(
    alloc: Global,
    typed: &Typed,
    rules: &B,
    name: &Text,
    place: usize,
    env: &Env,
) -> Result<Text, NoMemory>
    requires there { place < length (claims_of typed.now.file) }
    requires fit { FitsTerms (B.kinds rules.now) typed.now.file (inputs_of env.now) }
    ensures { IfOk result (IsRefutingBy (B.kinds rules.now) typed.now.file name.now place env.now) }
{
    let schedule = plain_at(alloc, typed, place, env, rules)?;
    refuted_with(alloc, typed, name, &schedule)
}

/// What is printed of an obligation of a list that fails. Its only error is out of memory.
fn refuting<B: Book>(
    alloc: Global,
    typed: &Typed,
    rules: &B,
    all: &[Obligation],
    refuted_at: &Refutation,
) -> Result<Text, NoMemory>
    requires each { length all.now ≡ length (claims_of typed.now.file) }
    requires there { refuted_at.now.place < length all.now }
    requires fit { IsFitting (B.kinds rules.now) typed.now.file refuted_at.now }
    ensures { IfOk result (IsRefuting (B.kinds rules.now) typed.now.file (names_in all.now) refuted_at.now) }
{
    let place = refuted_at.place;
    let obligation = &all[place];
    refuted_by(
        alloc,
        typed,
        rules,
        &obligation.name,
        place,
        &refuted_at.env,
    )
}

/// What is printed after the lines of the verdicts, and the status that goes with it. Its only error is out of memory.
fn last_lines<B: Book>(
    alloc: Global,
    typed: &Typed,
    rules: &B,
    all: &[Obligation],
    summary: &Summary,
) -> Result<(Status, Text), NoMemory>
    requires each { length all.now ≡ length (claims_of typed.now.file) }
    requires there { IfSome summary.now.refuted (λ r. r.place < length all.now) }
    requires fit { IfSome summary.now.refuted (IsFitting (B.kinds rules.now) typed.now.file) }
    ensures { IfOk result (λ end. IsEnd (B.kinds rules.now) typed.now.file (names_in all.now) summary.now end.0 end.1) }
{
    let status = status_by(summary.refuted.is_some(), summary.spent);
    if let Some(refuted_at) = &summary.refuted {
        let text = refuting(alloc, typed, rules, all, refuted_at)?;
        return Ok((status, text));
    }
    if summary.spent {
        return Ok((status, undecided(alloc)?));
    }
    Ok((status, verified(alloc, all.len())?))
}

/// Reports the obligations of a file, and puts what is printed after their lines.
fn report_file<B: Book, K: Sink>(
    alloc: Global,
    typed: &Typed,
    bank: &mut Bank,
    rules: &B,
    all: &[Obligation],
    budget: u32,
    sink: &mut K,
) -> Status
    requires digits { AreDigits bank.old all.now }
    requires each { length all.now ≡ length (claims_of typed.now.file) }
    requires made { AreMadeIn (B.kinds rules.now) typed.now.file bank.old all.now }
    requires budget { 0 < budget }
    ensures told { IsConcluded (B.kinds rules.now) typed.now.file bank.old budget all.now (K.taken sink.old) (K.taken sink.new)
        (Rose (K.faults sink.old) (K.faults sink.new)) result }
    ensures later { K.faults sink.old ≤ K.faults sink.new }
{
    let summary = match report_all(alloc, bank, rules, all, budget, sink) {
        Ok(summary) => summary,
        Err(status) => return status,
    };
    match last_lines(alloc, typed, rules, all, &summary) {
        Ok((status, text)) => put_all(sink, text.as_slice(), status),
        Err(_) => Status::NoMemory,
    }
}

/// Verifies a layer file within a budget: decides its obligations in order, puts the line of each as soon as it is decided, and then the last line, after
/// which stands a schedule of the first obligation that fails, where one does. Nothing is put before all terms are made. The rules only make the terms
/// smaller. Where the sink fails, the command ends with a fault.
pub fn put_verdicts<B: Book, K: Sink>(
    alloc: Global,
    rules: &B,
    typed: &Typed,
    budget: u32,
    sink: &mut K,
) -> Status
    requires { 0 < budget }
    ensures told { Streams (B.kinds rules.now) typed.now.file budget (K.taken sink.old) (K.taken sink.new)
        (Rose (K.faults sink.old) (K.faults sink.new)) result }
    ensures later { K.faults sink.old ≤ K.faults sink.new }
{
    let Ok(mut bank) = Bank::new(alloc) else {
        return Status::NoMemory;
    };
    let Ok(all) = obligations(alloc, typed, &mut bank, rules) else {
        return Status::NoMemory;
    };
    // the file has no type error, and derives
    let _ = typed.file();
    typed_histories();
    refines_by_list();
    file_schedules();
    one_ending();
    printed_shows();
    report_file(alloc, typed, &mut bank, rules, all.as_slice(), budget, sink)
}
