//! The checker judges a derivation.

use crate::input::{self, Input};
use crate::timing;
use std::alloc::Global;
use std::io;
use std::time::Instant;
use ygg_chain::Checker;
use ygg_cnf::{Clauses, Log, Step};
use ygg_list::NoMemory;

/// Judges the derivation that standard input has, and prints how many resolution steps it takes and how many nanoseconds that took.
pub fn measure(rt: &HostRuntime) -> anyhow::Result<()> {
    let mut input = Input::new(rt.alloc());
    let judged = read_and_judge(rt, &mut input);
    drop(input);
    judged
}

/// Reads the derivation, and judges it.
fn read_and_judge(rt: &HostRuntime, input: &mut Input) -> anyhow::Result<()> {
    input::fill(rt, input)?;
    judge(rt, input)
}

/// Judges a derivation, and prints how many resolution steps it takes and how many nanoseconds that took.
fn judge(rt: &HostRuntime, input: &Input) -> anyhow::Result<()> {
    let start = Instant::now(rt)?;
    let judged = steps_of(rt.alloc(), &input.clauses, &input.log)?;
    tell(rt, start, judged)?;
    Ok(())
}

/// Prints how many resolution steps were taken since the start, and how many nanoseconds.
fn tell(rt: &HostRuntime, start: Instant, judged: Option<(usize, bool)>) -> io::Result<()> {
    match judged {
        Some((steps, refuted)) => {
            let what = if refuted { "refuted" } else { "derived" };
            timing::report(rt, start, &format_args!("{what} in {steps} steps"))
        }
        None => timing::report(rt, start, &"not derived"),
    }
}

/// How many resolution steps the log takes, if its chains derive its clauses, and whether an empty clause is held then.
fn steps_of(
    alloc: Global,
    clauses: &Clauses,
    log: &Log,
) -> Result<Option<(usize, bool)>, NoMemory> {
    let mut checker = Checker::new(alloc, clauses)?;
    steps_with(&mut checker, log)
}

/// How many resolution steps the log takes over what the checker holds.
fn steps_with(checker: &mut Checker, log: &Log) -> Result<Option<(usize, bool)>, NoMemory> {
    let mut steps: usize = 0;
    for Step::Added { clause, chain } in log.as_slice() {
        if !checker.follows(chain.as_slice(), clause.as_slice()) {
            return Ok(None);
        }
        steps = steps.saturating_add(chain.len().saturating_sub(1));
        checker.add(clause)?;
    }
    Ok(Some((steps, checker.refuted())))
}
