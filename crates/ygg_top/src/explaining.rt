//! From two names to the text that explains a schedule.

ghost use Rattle.std.specs.Prelude.{◌≡◌, ◌≤◌, IfOk, IfErr};
ghost use Rattle.ygg_base.specs.Outside.{Rose};
ghost use Rattle.ygg_top_command.specs.ygg_report.Putting.{NoFront};
ghost use Rattle.ygg_top_command.specs.Fetched.{IsUnread};
ghost use Rattle.ygg_top_command.specs.Refusing.{most_bytes};
ghost use Rattle.ygg_top_command.specs.Reports.{Told, IsDoneWith};
ghost use Rattle.ygg_top_command.specs.Standing.{DoesWith};
ghost use Rattle.ygg_top.specs.Explaining.{ExplainsNamed, ExplainsStored};

use std::alloc::Global;
use ygg_base::{Library, Sink, Status, Text};
use ygg_explain::explain_text;
use ygg_top_command::{CommandStop, MOST_BYTES, close, end, fetched, layer_file, put_all};
use ygg_type::Typed;

/// The end of replaying the schedule that stands under the name, the second word after the command's, for a layer file; or why there is none.
fn explained<L: Library>(
    alloc: Global,
    typed: &Typed,
    schedule: &Text,
    library: &mut L,
) -> Result<(Status, Text), CommandStop>
    ensures done { IfOk result (λ ending. IsDoneWith ending.0) }
    ensures explains { IfOk result (λ ending. DoesWith (ExplainsStored typed.now.file) (L.files library.old) schedule.now ending.0 ending.1) }
    ensures unread { IfErr result (IsUnread most_bytes 2 (L.files library.old) schedule.now (Rose (L.faults library.old) (L.faults library.new))) }
    ensures kept { L.files library.new ≡ L.files library.old }
    ensures later { L.faults library.old ≤ L.faults library.new }
{
    let text = fetched(schedule, MOST_BYTES, 2, library)?;
    match explain_text(alloc, typed, text.as_slice()) {
        Ok(ending) => Ok(ending),
        Err(_) => Err(CommandStop::NoMemory),
    }
}

/// Replays the schedule that stands under the name, the second word after the command's, for a layer file, and puts its one line.
fn explain_for<L: Library, K: Sink>(
    alloc: Global,
    typed: &Typed,
    schedule: &Text,
    library: &mut L,
    sink: &mut K,
) -> Status
    ensures told { Told (DoesWith (ExplainsStored typed.now.file) (L.files library.old) schedule.now) NoFront (K.taken sink.old) (K.taken sink.new)
        (Rose (L.faults library.old) (L.faults library.new)) (Rose (K.faults sink.old) (K.faults sink.new)) result }
    ensures kept { L.files library.new ≡ L.files library.old }
    ensures later_library { L.faults library.old ≤ L.faults library.new }
    ensures later_sink { K.faults sink.old ≤ K.faults sink.new }
{
    match explained(alloc, typed, schedule, library) {
        Ok((status, line)) => put_all(sink, line.as_slice(), status),
        Err(stop) => end(alloc, stop, sink),
    }
}

/// Replays the schedule of the one name for the layer file of the other, and puts its one line: its refusal 31 to 34, or what it shows of the obligation that
/// it names. A layer file is refused 73 or 11 at `0:1`, or 1 to 10, before the schedule is fetched, which is refused 73 or 11 at `0:2`.
pub fn explain<L: Library, K: Sink>(
    alloc: Global,
    file: &Text,
    schedule: &Text,
    library: &mut L,
    sink: &mut K,
) -> Status
    ensures told { Told (ExplainsNamed (L.files library.old) file.now schedule.now) NoFront (K.taken sink.old) (K.taken sink.new)
        (Rose (L.faults library.old) (L.faults library.new)) (Rose (K.faults sink.old) (K.faults sink.new)) result }
    ensures kept { L.files library.new ≡ L.files library.old }
    ensures later_library { L.faults library.old ≤ L.faults library.new }
    ensures later_sink { K.faults sink.old ≤ K.faults sink.new }
{
    let typed = match layer_file(alloc, file, library) {
        Ok(typed) => typed,
        Err(stop) => return end(alloc, stop, sink),
    };
    let status = explain_for(alloc, &typed, schedule, library, sink);
    close(typed);
    status
}
