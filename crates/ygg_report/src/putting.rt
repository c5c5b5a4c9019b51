//! Texts put into a sink.

ghost use Rattle.std.specs.Prelude.{◌≡◌, ◌≤◌};
ghost use Rattle.ygg_base.specs.Outside.{Rose};
ghost use Rattle.ygg_report.specs.Putting.{IsPut, IsPutSo};

use ygg_base::{Moved, Sink, Status};

/// Puts a text, and says with which status the command ends where it can't.
pub fn put<K: Sink>(sink: &mut K, text: &[u8]) -> Result<(), Status>
    ensures told { IsPut (K.taken sink.old) (K.taken sink.new) text.now (Rose (K.faults sink.old) (K.faults sink.new)) result }
    ensures later { K.faults sink.old ≤ K.faults sink.new }
{
    match sink.put(text) {
        Moved::Done => Ok(()),
        Moved::Failed => Err(Status::Fault),
    }
}

/// Prints the text, and ends with the status; or with a fault, where the sink fails.
pub fn put_all<K: Sink>(sink: &mut K, text: &[u8], status: Status) -> Status
    ensures told { IsPutSo (K.taken sink.old) (K.taken sink.new) text.now status (Rose (K.faults sink.old) (K.faults sink.new)) result }
    ensures later { K.faults sink.old ≤ K.faults sink.new }
{
    match put(sink, text) {
        Ok(()) => status,
        Err(fault) => fault,
    }
}
