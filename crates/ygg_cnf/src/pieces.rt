//! Long texts put piece by piece: bytes are kept until there are enough of them, and then put.

ghost use Rattle.std.specs.Prelude.{◌≤◌, []};
ghost use Rattle.ygg_base.specs.Outside.{Rose};
ghost use Rattle.ygg_cnf.specs.Lines.{step_line};
ghost use Rattle.ygg_cnf.specs.Pieces.{Passes, Finishes, log_lines};

use crate::lines::put_step;
use crate::log::Step;
use std::alloc::Global;
use ygg_base::{Sink, Status, Text};
use ygg_report::put;

/// How many bytes are kept at most before they are put.
const PIECE: usize = 65_536;

/// Puts what is kept, where that is a whole piece.
pub fn pass<K: Sink>(alloc: Global, sink: &mut K, kept: &mut Text) -> Result<(), Status>
    ensures told { Passes (K.taken sink.old) kept.old (K.taken sink.new) kept.new [] (Rose (K.faults sink.old) (K.faults sink.new)) result }
    ensures later { K.faults sink.old ≤ K.faults sink.new }
{
    if kept.len() < PIECE {
        return Ok(());
    }
    match put(sink, kept.as_slice()) {
        Ok(()) => {
            *kept = Text::new(alloc);
            Ok(())
        }
        Err(status) => Err(status),
    }
}

/// Goes on with the line of a step of a log.
fn pass_step<K: Sink>(
    alloc: Global,
    sink: &mut K,
    kept: &mut Text,
    step: &Step,
) -> Result<(), Status>
    ensures told { Passes (K.taken sink.old) kept.old (K.taken sink.new) kept.new (step_line step.now) (Rose (K.faults sink.old) (K.faults sink.new)) result }
    ensures later { K.faults sink.old ≤ K.faults sink.new }
{
    let Ok(()) = put_step(kept, step) else {
        return Err(Status::NoMemory);
    };
    pass(alloc, sink, kept)
}

/// Goes on with the lines of a log.
pub fn pass_log<K: Sink>(
    alloc: Global,
    sink: &mut K,
    kept: &mut Text,
    log: &[Step],
) -> Result<(), Status>
    ensures told { Passes (K.taken sink.old) kept.old (K.taken sink.new) kept.new (log_lines log.now) (Rose (K.faults sink.old) (K.faults sink.new)) result }
    ensures later { K.faults sink.old ≤ K.faults sink.new }
{
    for step in log {
        match pass_step(alloc, sink, kept, step) {
            Ok(()) => {}
            Err(status) => return Err(status),
        }
    }
    Ok(())
}

/// Puts what is kept, and then bytes.
pub fn finish<K: Sink>(sink: &mut K, kept: &mut Text, bytes: &[u8]) -> Result<(), Status>
    ensures told { Finishes (K.taken sink.old) kept.old (K.taken sink.new) bytes.now (Rose (K.faults sink.old) (K.faults sink.new)) result }
    ensures later { K.faults sink.old ≤ K.faults sink.new }
{
    let Ok(()) = kept.extend_from_slice(bytes) else {
        return Err(Status::NoMemory);
    };
    put(sink, kept.as_slice())
}
