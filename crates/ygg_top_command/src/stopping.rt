//! Commands that stop before they do anything.

ghost use Rattle.std.specs.Prelude.{◌≡◌, ◌≤◌};
ghost use Rattle.ygg_base.specs.Outside.{Rose};
ghost use Rattle.ygg_top_command.specs.Reports.{EndsBy};
ghost use Rattle.ygg_top_command.specs.Fetched.{stop_of};

use std::alloc::Global;
use ygg_base::{Refusal, Refuse, Sink, Status};
use ygg_report::{put_all, refused};

/// Why a command stops before it does anything.
#[derive(Clone, Copy, Drop)]
pub enum CommandStop {
    /// The words, or what stands under a name, are refused.
    Refused(Refusal),
    /// The library failed.
    LibraryFailed,
    /// No memory was left.
    NoMemory,
}

impl CommandStop {
    /// The same where a text isn't read.
    pub fn of(refuse: Refuse) -> CommandStop
        ensures { result ≡ stop_of refuse }
    {
        match refuse {
            Refuse::At(at) => CommandStop::Refused(at),
            Refuse::Memory => CommandStop::NoMemory,
        }
    }
}

/// Ends a command that stops: puts the line of a refusal, or that of a library that failed.
pub fn end<K: Sink>(alloc: Global, stop: CommandStop, sink: &mut K) -> Status
    ensures told { EndsBy stop (K.taken sink.old) (K.taken sink.new) (Rose (K.faults sink.old) (K.faults sink.new)) result }
    ensures later { K.faults sink.old ≤ K.faults sink.new }
{
    match stop {
        CommandStop::Refused(at) => match refused(alloc, at) {
            Ok(line) => put_all(sink, line.as_slice(), Status::Refused),
            Err(_) => Status::NoMemory,
        },
        CommandStop::LibraryFailed => put_all(sink, b"fault library\n", Status::Fault),
        CommandStop::NoMemory => Status::NoMemory,
    }
}
