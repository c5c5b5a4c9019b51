//! The command `certify`.

ghost use Rattle.std.specs.Prelude.{◌≡◌, ◌<◌, ◌≤◌};
ghost use Rattle.ygg_base.specs.Outside.{Rose};
ghost use Rattle.ygg_certify.specs.ygg_report.Putting.{Puts};
ghost use Rattle.ygg_certify.specs.Certifying.{IsOpen};
ghost use Rattle.ygg_top.specs.ygg_top_command.Reports.{Told};
ghost use Rattle.ygg_top.specs.ygg_top_command.Standing.{DoesWith, DoesWithin};
ghost use Rattle.ygg_top.specs.Certifying.{Certified, CertifiesFile, IsCutCertificate, IsCutCertifying, PutsOnce};

use crate::certified_finding::opened;
use std::alloc::Global;
use ygg_base::{Library, Sink, Status, Text};
use ygg_certify::{Certifying, Finding, judged_once, put_all};
use ygg_oblige_reading::Book;
use ygg_top_command::{budget, close, end, layer_file};
use ygg_type::Typed;

/// Puts what is printed where not all obligations were found to hold.
fn put_opened<B: Book, K: Sink>(
    alloc: Global,
    rules: &B,
    typed: &Typed,
    findings: &[Finding],
    budget: u32,
    sink: &mut K,
) -> Status
    requires { IsOpen (B.kinds rules.now) typed.now.file budget findings.now }
    ensures told { PutsOnce (CertifiesFile (B.kinds rules.now) typed.now.file budget) (K.taken sink.old) (K.taken sink.new)
        (Rose (K.faults sink.old) (K.faults sink.new)) result }
    ensures later { K.faults sink.old ≤ K.faults sink.new }
{
    match opened(alloc, typed, rules, findings, budget) {
        Ok((status, text)) => put_all(sink, text.as_slice(), status),
        Err(_) => Status::NoMemory,
    }
}

/// Certifies a layer file within a budget: puts its certificate alone where all of its obligations are found to hold, and else what `verify` prints of it.
/// Nothing is put before all are decided. The rules only make the terms smaller. Where the sink fails, the command ends with a fault.
fn put_certified<B: Book, K: Sink>(
    alloc: Global,
    rules: &B,
    typed: &Typed,
    budget: u32,
    sink: &mut K,
) -> Status
    requires { 0 < budget }
    ensures told { Puts (CertifiesFile (B.kinds rules.now) typed.now.file budget) (IsCutCertificate (B.kinds rules.now) typed.now.file budget)
        (K.taken sink.old) (K.taken sink.new) (Rose (K.faults sink.old) (K.faults sink.new)) result }
    ensures later { K.faults sink.old ≤ K.faults sink.new }
{
    // of a text one thing is said, so that `check` accepts what is put
    judged_once();
    match ygg_certify::certify(alloc, rules, typed, budget, sink) {
        Certifying::Ends(status) => status,
        Certifying::Open(findings) => {
            put_opened(alloc, rules, typed, findings.as_slice(), budget, sink)
        }
    }
}

/// The command `certify FILE`, within a budget of learned clauses for each obligation: puts a certificate of the layer file under the name alone where all of
/// its obligations are found to hold, and ends with 0; and else what `verify` prints of it, and ends as that does. What is no layer file without a fault is
/// refused: 73 or 11 at `0:1`, or 1 to 10. Nothing is put before all obligations are decided.
pub fn certify<B: Book, L: Library, K: Sink>(
    alloc: Global,
    rules: &B,
    name: &Text,
    budget: u32,
    library: &mut L,
    sink: &mut K,
) -> Status
    requires { 0 < budget }
    ensures told { Told (DoesWith (Certified (B.kinds rules.now) budget) (L.files library.old) name.now)
        (IsCutCertifying (B.kinds rules.now) (DoesWith (Certified (B.kinds rules.now) budget) (L.files library.old) name.now))
        (K.taken sink.old) (K.taken sink.new) (Rose (L.faults library.old) (L.faults library.new)) (Rose (K.faults sink.old) (K.faults sink.new)) result }
    ensures kept { L.files library.new ≡ L.files library.old }
    ensures later_library { L.faults library.old ≤ L.faults library.new }
    ensures later_sink { K.faults sink.old ≤ K.faults sink.new }
{
    let typed = match layer_file(alloc, name, library) {
        Ok(typed) => typed,
        Err(stop) => return end(alloc, stop, sink),
    };
    let status = put_certified(alloc, rules, &typed, budget, sink);
    close(typed);
    status
}

/// The same within the budget that a word is: a number from 1 to 10,000,000. Another word is refused 72 at `0:2`, before anything is fetched.
pub fn certify_within<B: Book, L: Library, K: Sink>(
    alloc: Global,
    rules: &B,
    name: &Text,
    word: &Text,
    library: &mut L,
    sink: &mut K,
) -> Status
    ensures told { Told (DoesWithin (Certified (B.kinds rules.now)) (L.files library.old) name.now word.now)
        (IsCutCertifying (B.kinds rules.now) (DoesWithin (Certified (B.kinds rules.now)) (L.files library.old) name.now word.now))
        (K.taken sink.old) (K.taken sink.new) (Rose (L.faults library.old) (L.faults library.new)) (Rose (K.faults sink.old) (K.faults sink.new)) result }
    ensures kept { L.files library.new ≡ L.files library.old }
    ensures later_library { L.faults library.old ≤ L.faults library.new }
    ensures later_sink { K.faults sink.old ≤ K.faults sink.new }
{
    match budget(alloc, word.as_slice()) {
        Ok(budget) => certify(alloc, rules, name, budget, library, sink),
        Err(stop) => end(alloc, stop, sink),
    }
}
