//! The command `check`.

ghost use Rattle.std.specs.Prelude.{◌≡◌, ◌≤◌, IfOk, IfErr, OnOk};
ghost use Rattle.ygg_base.specs.Outside.{Rose};
ghost use Rattle.ygg_certify.specs.ygg_report.Putting.{NoFront};
ghost use Rattle.ygg_top.specs.ygg_top_command.Fetched.{IsUnread};
ghost use Rattle.ygg_top.specs.ygg_top_command.Reports.{MayStop, Told};
ghost use Rattle.ygg_top.specs.ygg_top_command.Standing.{DoesWith};
ghost use Rattle.ygg_top.specs.Checking.{ChecksNamed, ChecksStored, OpensNamed, most_certificate_bytes};

use std::alloc::Global;
use ygg_base::{Library, Opened, Reason, Sink, Status, Text};
use ygg_certify::{Unchecked, put_all};
use ygg_oblige_reading::Book;
use ygg_top_command::{CommandStop, close, end, layer_file};
use ygg_type::Typed;

/// The most bytes of a certificate.
const MOST_BYTES: u64 = 67_108_864;

/// Opens the certificate of that name, the second word after the command's; or says why none is opened: it is refused 73 where nothing stands there, and 11
/// where it has more than 67,108,864 bytes, both at `0:2`.
fn opened<L: Library>(name: &Text, library: &mut L) -> Result<(), CommandStop>
    ensures opens { OnOk result (OpensNamed most_certificate_bytes (L.files library.old) name.now (L.reading library.new)) }
    ensures unread { IfErr result (IsUnread most_certificate_bytes 2 (L.files library.old) name.now (Rose (L.faults library.old) (L.faults library.new))) }
    ensures kept { L.files library.new ≡ L.files library.old }
    ensures later { L.faults library.old ≤ L.faults library.new }
{
    match library.open(name, MOST_BYTES) {
        Opened::Open => Ok(()),
        Opened::Absent => Err(CommandStop::Refused(Reason::Absent.at(0, 2))),
        Opened::TooLarge => Err(CommandStop::Refused(Reason::TooLarge.at(0, 2))),
        Opened::Failed => Err(CommandStop::LibraryFailed),
        Opened::Memory => Err(CommandStop::NoMemory),
    }
}

/// How the command ends for a layer file and the certificate of that name, and what it prints; or why it stops.
pub fn checked_stored<B: Book, L: Library>(
    alloc: Global,
    rules: &B,
    typed: &Typed,
    name: &Text,
    library: &mut L,
) -> Result<(Status, Text), CommandStop>
    ensures done { IfOk result (λ end. DoesWith (ChecksStored (B.kinds rules.now) typed.now.file) (L.files library.old) name.now end.0 end.1) }
    ensures stops { IfErr result (MayStop (DoesWith (ChecksStored (B.kinds rules.now) typed.now.file) (L.files library.old) name.now)
        (Rose (L.faults library.old) (L.faults library.new))) }
    ensures kept { L.files library.new ≡ L.files library.old }
    ensures later { L.faults library.old ≤ L.faults library.new }
{
    match opened(name, library) {
        Ok(()) => {}
        Err(stop) => return Err(stop),
    }
    match ygg_certify::check(alloc, rules, typed, library) {
        Ok(end) => Ok(end),
        Err(Unchecked::LibraryFailed) => Err(CommandStop::LibraryFailed),
        Err(Unchecked::NoMemory) => Err(CommandStop::NoMemory),
    }
}

/// How the command ends for the layer file and the certificate of these names, and what it prints; or why it stops.
fn checked<B: Book, L: Library>(
    alloc: Global,
    rules: &B,
    file: &Text,
    certificate: &Text,
    library: &mut L,
) -> Result<(Status, Text), CommandStop>
    ensures done { IfOk result (λ end. ChecksNamed (B.kinds rules.now) (L.files library.old) file.now certificate.now end.0 end.1) }
    ensures stops { IfErr result (MayStop (ChecksNamed (B.kinds rules.now) (L.files library.old) file.now certificate.now)
        (Rose (L.faults library.old) (L.faults library.new))) }
    ensures kept { L.files library.new ≡ L.files library.old }
    ensures later { L.faults library.old ≤ L.faults library.new }
{
    let typed = match layer_file(alloc, file, library) {
        Ok(typed) => typed,
        Err(stop) => return Err(stop),
    };
    let judged = checked_stored(alloc, rules, &typed, certificate, library);
    close(typed);
    judged
}

/// The command `check FILE CERT`: whether the text under the second name is a certificate of the layer file under the first. It ends with 0 and `checked N`
/// where it is one for the file's N obligations: each layer then refines its specification, and every history is allowed. It ends with 1 and `bad NAME ID`
/// where a clause isn't derived, or with 0 for ID where a log ends and no empty clause is held; and with 2 where the file or the certificate is refused. The
/// certificate is read in pieces, and no further than to its first line at fault.
pub fn check<B: Book, L: Library, K: Sink>(
    alloc: Global,
    rules: &B,
    file: &Text,
    certificate: &Text,
    library: &mut L,
    sink: &mut K,
) -> Status
    ensures told { Told (ChecksNamed (B.kinds rules.now) (L.files library.old) file.now certificate.now) NoFront (K.taken sink.old) (K.taken sink.new)
        (Rose (L.faults library.old) (L.faults library.new)) (Rose (K.faults sink.old) (K.faults sink.new)) result }
    ensures kept { L.files library.new ≡ L.files library.old }
    ensures later_library { L.faults library.old ≤ L.faults library.new }
    ensures later_sink { K.faults sink.old ≤ K.faults sink.new }
{
    match checked(alloc, rules, file, certificate, library) {
        Ok((status, text)) => put_all(sink, text.as_slice(), status),
        Err(stop) => end(alloc, stop, sink),
    }
}
