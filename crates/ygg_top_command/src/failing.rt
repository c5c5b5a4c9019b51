//! Commands whose device fails.

ghost use Rattle.std.specs.Prelude.{◌≤◌};
ghost use Rattle.ygg_base.specs.declared.status.Status.TheVariants.{Fault};
ghost use Rattle.ygg_base.specs.Outside.{Rose};
ghost use Rattle.ygg_top_command.specs.ygg_report.Putting.{IsPutSo};
ghost use Rattle.ygg_top_command.specs.Breaking.{device_fault};

use ygg_base::{Sink, Status};
use ygg_report::put_all;

/// Ends a command whose device failed: puts the line `fault device`.
pub fn end_broken<K: Sink>(sink: &mut K) -> Status
    ensures told { IsPutSo (K.taken sink.old) (K.taken sink.new) device_fault Fault (Rose (K.faults sink.old) (K.faults sink.new)) result }
    ensures later { K.faults sink.old ≤ K.faults sink.new }
{
    put_all(sink, b"fault device\n", Status::Fault)
}
