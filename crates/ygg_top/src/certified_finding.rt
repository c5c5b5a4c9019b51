//! What is printed where not all obligations of a file were found to hold.

ghost use Rattle.std.specs.Prelude.{◌≡◌, ◌<◌, length, All, None, Some, IfOk, IfSome, MatchOption};
ghost use Rattle.std.specs.Option.{option_copied};
ghost use Rattle.ygg_certify.specs.ygg_bank.Values.{inputs_of};
ghost use Rattle.ygg_top.specs.ygg_meaning.Claims.{claims_of};
ghost use Rattle.ygg_certify.specs.Findings.{IsHeld};
ghost use Rattle.ygg_certify.specs.Certifying.{IsOpen};
ghost use Rattle.ygg_top.specs.Findings.{FitsTerms, IsFitting};
ghost use Rattle.ygg_top.specs.Certifying.{CertifiesFile};
ghost use Rattle.ygg_top.specs.CertifiedFindings.{
  EndsOf,
  IsRefutedBy,
  IsUndecided,
  IsWithLast,
  env_of,
  lines_found,
  refutation_at,
  refutation_from,
  reported_of,
};

use crate::refuted_by;
use std::alloc::Global;
use ygg_base::{NoMemory, Status, Text};
use ygg_certify::{
    Env, Finding, Outcome, Verdict, clauses_mean_terms, derivations_are_sound, line, undecided,
};
use ygg_oblige_reading::Book;
use ygg_sched_names::{file_schedules, one_ending, printed_shows};
use ygg_type::Typed;
use ygg_yard::{refines_by_list, typed_histories};

/// What is reported of what was found within a budget.
fn reported(outcome: &Outcome, budget: u32) -> Verdict
    ensures { result ≡ reported_of budget outcome.now }
{
    match outcome {
        Outcome::Holds(_) => Verdict::Holds,
        Outcome::Fails(_) => Verdict::Fails,
        Outcome::Spent => Verdict::Spent(budget),
    }
}

/// The lines of what was found within a budget, in order. Its only error is out of memory.
fn lines(alloc: Global, findings: &[Finding], budget: u32) -> Result<Text, NoMemory>
    ensures { IfOk result (λ text. text ≡ lines_found budget findings.now) }
{
    let mut text = Text::new(alloc);
    for finding in findings {
        let verdict = reported(&finding.outcome, budget);
        let one = line(alloc, &verdict, &finding.name)?;
        text.extend_from_slice(one.as_slice())?;
    }
    Ok(text)
}

/// The environment that was found, where the term is 0 in one.
fn env_found(finding: &Finding) -> Option<&Env>
    ensures { option_copied result ≡ env_of finding.now.outcome }
{
    match &finding.outcome {
        Outcome::Holds(_) => None,
        Outcome::Fails(env) => Some(env),
        Outcome::Spent => None,
    }
}

/// The place of the first obligation that was found to fail, and the environment, where one was.
fn first_failing(findings: &[Finding]) -> Option<(usize, &Env)>
    ensures { MatchOption result (refutation_from 0 findings.now ≡ None)
        (λ found. refutation_from 0 findings.now ≡ Some (refutation_at found.0 found.1.now)) }
{
    let mut place = 0;
    for finding in findings {
        if let Some(env) = env_found(finding) {
            return Some((place, env));
        }
        place += 1;
    }
    None
}

/// What is printed last where an obligation fails, and the status that goes with it. Its only error is out of memory.
fn last_refuted<B: Book>(
    alloc: Global,
    typed: &Typed,
    rules: &B,
    findings: &[Finding],
    place: usize,
    env: &Env,
) -> Result<(Status, Text), NoMemory>
    requires within { place < length findings.now }
    requires there { place < length (claims_of typed.now.file) }
    requires fit { FitsTerms (B.kinds rules.now) typed.now.file (inputs_of env.now) }
    ensures { IfOk result (IsRefutedBy (B.kinds rules.now) typed.now.file findings.now place env.now) }
{
    let text = refuted_by(alloc, typed, rules, &findings[place].name, place, env)?;
    Ok((Status::Refuted, text))
}

/// What is printed last where no obligation fails, and the status that goes with it. Its only error is out of memory.
fn last_undecided(alloc: Global) -> Result<(Status, Text), NoMemory>
    ensures { IfOk result IsUndecided }
{
    let text = undecided(alloc)?;
    Ok((Status::Undecided, text))
}

/// What is printed after the lines of what was found, and the status that goes with it. Its only error is out of memory.
fn open_lines<B: Book>(
    alloc: Global,
    typed: &Typed,
    rules: &B,
    findings: &[Finding],
) -> Result<(Status, Text), NoMemory>
    requires unheld { All IsHeld findings.now → ⊥ }
    requires each { length findings.now ≡ length (claims_of typed.now.file) }
    requires fit { IfSome (refutation_from 0 findings.now) (IsFitting (B.kinds rules.now) typed.now.file) }
    ensures { IfOk result (EndsOf (B.kinds rules.now) typed.now.file findings.now) }
{
    match first_failing(findings) {
        Some((place, env)) => last_refuted(alloc, typed, rules, findings, place, env),
        None => last_undecided(alloc),
    }
}

/// Text with what is printed last, and the status that goes with that. Its only error is out of memory.
fn with_last(mut text: Text, last: (Status, Text)) -> Result<(Status, Text), NoMemory>
    ensures { IfOk result (IsWithLast text last) }
{
    let (status, rest) = last;
    text.extend_from_slice(rest.as_slice())?;
    Ok((status, text))
}

/// What is printed where not all obligations were found to hold, and the status that goes with it. Its only error is out of memory.
pub fn opened<B: Book>(
    alloc: Global,
    typed: &Typed,
    rules: &B,
    findings: &[Finding],
    budget: u32,
) -> Result<(Status, Text), NoMemory>
    requires { IsOpen (B.kinds rules.now) typed.now.file budget findings.now }
    ensures { IfOk result (λ end. CertifiesFile (B.kinds rules.now) typed.now.file budget end.0 end.1) }
{
    // the file has no type error, and derives
    let _ = typed.file();
    derivations_are_sound();
    clauses_mean_terms();
    typed_histories();
    refines_by_list();
    file_schedules();
    one_ending();
    printed_shows();
    let text = lines(alloc, findings, budget)?;
    let last = open_lines(alloc, typed, rules, findings)?;
    with_last(text, last)
}
