//! From two names to the clauses of an obligation.

ghost use Rattle.std.specs.Prelude.{◌≡◌, ◌≤◌};
ghost use Rattle.ygg_base.specs.Outside.{Rose};
ghost use Rattle.ygg_top_command.specs.Reports.{Told};
ghost use Rattle.ygg_top.specs.Asking.{Asks, AsksNamed, IsCutAsking};

use crate::naming::is_obligation;
use crate::printing::put_obligation;
use std::alloc::Global;
use ygg_base::{Library, Reason, Sink, Status, Text};
use ygg_dimacs::Book;
use ygg_top_command::{CommandStop, Typed, close, end, layer_file};

/// Puts the text of the clauses of the obligation of this name of a layer file. A name that no obligation of it has is refused 74 at `0:2`.
fn cnf_of<B: Book, K: Sink>(
    alloc: Global,
    rules: &B,
    typed: &Typed,
    name: &[u8],
    sink: &mut K,
) -> Status
    ensures told { Told (Asks (B.kinds rules.now) typed.now.file name.now) (IsCutAsking (B.kinds rules.now) (Asks (B.kinds rules.now) typed.now.file name.now))
        (K.taken sink.old) (K.taken sink.new) ⊥ (Rose (K.faults sink.old) (K.faults sink.new)) result }
    ensures later { K.faults sink.old ≤ K.faults sink.new }
{
    if is_obligation(typed.file(), name) {
        return put_obligation(alloc, rules, typed, name, sink);
    }
    end(
        alloc,
        CommandStop::Refused(Reason::NoObligation.at(0, 2)),
        sink,
    )
}

/// Puts the text of the clauses of the obligation of the one name of the layer file of the other: they are those that deciding it takes, and some truth values
/// satisfy them exactly where some schedule violates it. A layer file is refused 73 or 11 at `0:1`, or 1 to 10; after that a name that no obligation of it has
/// is refused 74 at `0:2`. Where no memory is left, a front of the text may have been put.
pub fn cnf<B: Book, L: Library, K: Sink>(
    alloc: Global,
    rules: &B,
    file: &Text,
    name: &Text,
    library: &mut L,
    sink: &mut K,
) -> Status
    ensures told { Told (AsksNamed (B.kinds rules.now) (L.files library.old) file.now name.now)
        (IsCutAsking (B.kinds rules.now) (AsksNamed (B.kinds rules.now) (L.files library.old) file.now name.now)) (K.taken sink.old) (K.taken sink.new)
        (Rose (L.faults library.old) (L.faults library.new)) (Rose (K.faults sink.old) (K.faults sink.new)) result }
    ensures kept { L.files library.new ≡ L.files library.old }
    ensures later_library { L.faults library.old ≤ L.faults library.new }
    ensures later_sink { K.faults sink.old ≤ K.faults sink.new }
{
    let typed = match layer_file(alloc, file, library) {
        Ok(typed) => typed,
        Err(stop) => return end(alloc, stop, sink),
    };
    let status = cnf_of(alloc, rules, &typed, name.as_slice(), sink);
    close(typed);
    status
}
