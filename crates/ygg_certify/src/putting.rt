//! The certificate of what was found, put piece by piece.

ghost use Rattle.std.specs.Prelude.{◌≡◌, ◌≤◌, []};
ghost use Rattle.std.specs.List.{flat_map};
ghost use Rattle.ygg_base.specs.Outside.{Rose};
ghost use Rattle.ygg_cnf.specs.Pieces.{Passes, Finishes, FinishesWith};
ghost use Rattle.ygg_certify.specs.Findings.{lines_of, log_of, text_of};

use crate::finding::{Finding, Outcome};
use std::alloc::Global;
use ygg_base::{Sink, Status, Text};
use ygg_cert::{Step, put_closing, put_first, put_opening};
use ygg_cnf::{finish, pass, pass_log};

/// The steps of the log that was found; none where none was.
fn steps(outcome: &Outcome) -> &[Step]
    ensures { result.now ≡ log_of outcome.now }
{
    match outcome {
        Outcome::Holds(log) => log.as_slice(),
        Outcome::Fails(_) => &[],
        Outcome::Spent => &[],
    }
}

/// Goes on with the lines of the log that was found of a term.
fn pass_finding<K: Sink>(
    alloc: Global,
    sink: &mut K,
    kept: &mut Text,
    finding: &Finding,
) -> Result<(), Status>
    ensures told { Passes (K.taken sink.old) kept.old (K.taken sink.new) kept.new (lines_of finding.now) (Rose (K.faults sink.old) (K.faults sink.new)) result }
    ensures later { K.faults sink.old ≤ K.faults sink.new }
{
    let Ok(()) = put_opening(kept, finding.name.as_slice(), finding.clauses) else {
        return Err(Status::NoMemory);
    };
    match pass_log(alloc, sink, kept, steps(&finding.outcome)) {
        Ok(()) => {}
        Err(status) => return Err(status),
    }
    let Ok(()) = put_closing(kept) else {
        return Err(Status::NoMemory);
    };
    pass(alloc, sink, kept)
}

/// Goes on with the lines of the logs that were found.
fn pass_findings<K: Sink>(
    alloc: Global,
    sink: &mut K,
    kept: &mut Text,
    findings: &[Finding],
) -> Result<(), Status>
    ensures told { Passes (K.taken sink.old) kept.old (K.taken sink.new) kept.new (flat_map lines_of findings.now)
        (Rose (K.faults sink.old) (K.faults sink.new)) result }
    ensures later { K.faults sink.old ≤ K.faults sink.new }
{
    for finding in findings {
        match pass_finding(alloc, sink, kept, finding) {
            Ok(()) => {}
            Err(status) => return Err(status),
        }
    }
    Ok(())
}

/// Puts the certificate of what was found.
fn pass_certificate<K: Sink>(
    alloc: Global,
    sink: &mut K,
    findings: &[Finding],
) -> Result<(), Status>
    ensures told { Finishes (K.taken sink.old) [] (K.taken sink.new) (text_of findings.now) (Rose (K.faults sink.old) (K.faults sink.new)) result }
    ensures later { K.faults sink.old ≤ K.faults sink.new }
{
    let mut kept = Text::new(alloc);
    let Ok(()) = put_first(&mut kept) else {
        return Err(Status::NoMemory);
    };
    match pass_findings(alloc, sink, &mut kept, findings) {
        Ok(()) => finish(sink, &mut kept, b"end\n"),
        Err(status) => Err(status),
    }
}

/// Puts the certificate of what was found piece by piece, and says with which status the command ends: that all was done; or a fault of the sink or out of
/// memory, after which a front of the certificate may have been put.
pub fn put_findings<K: Sink>(alloc: Global, sink: &mut K, findings: &[Finding]) -> Status
    ensures told { FinishesWith Status.Done (K.taken sink.old) (K.taken sink.new) (text_of findings.now) (Rose (K.faults sink.old) (K.faults sink.new)) result }
    ensures later { K.faults sink.old ≤ K.faults sink.new }
{
    match pass_certificate(alloc, sink, findings) {
        Ok(()) => Status::Done,
        Err(status) => status,
    }
}
