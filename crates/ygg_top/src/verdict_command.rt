//! The commands: a layer file that is verified, and one that is made and verified.

ghost use Rattle.std.specs.Prelude.{◌≡◌, ◌<◌, ◌≤◌};
ghost use Rattle.ygg_base.specs.Outside.{Rose};
ghost use Rattle.ygg_top.specs.ygg_report.Putting.{NoFront};
ghost use Rattle.ygg_top.specs.ygg_top_command.Reports.{Told};
ghost use Rattle.ygg_top.specs.ygg_top_command.Standing.{DoesWith, DoesWithin};
ghost use Rattle.ygg_top.specs.Verifying.{Demos, DemosMade, IsCutRun, Verifies, most_operations};

use crate::counting::put_counts;
use crate::making::{made_file, operations};
use crate::verdict::put_verdicts;
use std::alloc::Global;
use ygg_base::{Library, Sink, Status, Text};
use ygg_oblige_reading::Book;
use ygg_top_command::{budget, close, end, layer_file};

/// Verifies the layer file of that name within a budget: puts a line for each of its obligations as soon as it is decided, and the last line. What is no layer
/// file without a fault is refused: 73 or 11 at `0:1`, or 1 to 10.
pub fn verify<B: Book, L: Library, K: Sink>(
    alloc: Global,
    rules: &B,
    name: &Text,
    budget: u32,
    library: &mut L,
    sink: &mut K,
) -> Status
    requires { 0 < budget }
    ensures told { Told (DoesWith (Verifies (B.kinds rules.now) budget) (L.files library.old) name.now)
        (IsCutRun (B.kinds rules.now) (DoesWith (Verifies (B.kinds rules.now) budget) (L.files library.old) name.now))
        (K.taken sink.old) (K.taken sink.new) (Rose (L.faults library.old) (L.faults library.new)) (Rose (K.faults sink.old) (K.faults sink.new)) result }
    ensures kept { L.files library.new ≡ L.files library.old }
    ensures later_library { L.faults library.old ≤ L.faults library.new }
    ensures later_sink { K.faults sink.old ≤ K.faults sink.new }
{
    let typed = match layer_file(alloc, name, library) {
        Ok(typed) => typed,
        Err(stop) => return end(alloc, stop, sink),
    };
    let status = put_verdicts(alloc, rules, &typed, budget, sink);
    close(typed);
    status
}

/// The same within the budget that a word is: a number from 1 to 10,000,000. Another word is refused 72 at `0:2`, before anything is fetched.
pub fn verify_within<B: Book, L: Library, K: Sink>(
    alloc: Global,
    rules: &B,
    name: &Text,
    word: &Text,
    library: &mut L,
    sink: &mut K,
) -> Status
    ensures told { Told (DoesWithin (Verifies (B.kinds rules.now)) (L.files library.old) name.now word.now)
        (IsCutRun (B.kinds rules.now) (DoesWithin (Verifies (B.kinds rules.now)) (L.files library.old) name.now word.now))
        (K.taken sink.old) (K.taken sink.new) (Rose (L.faults library.old) (L.faults library.new)) (Rose (K.faults sink.old) (K.faults sink.new)) result }
    ensures kept { L.files library.new ≡ L.files library.old }
    ensures later_library { L.faults library.old ≤ L.faults library.new }
    ensures later_sink { K.faults sink.old ≤ K.faults sink.new }
{
    match budget(alloc, word.as_slice()) {
        Ok(budget) => verify(alloc, rules, name, budget, library, sink),
        Err(stop) => end(alloc, stop, sink),
    }
}

/// Verifies the layer file that is made for the number of operations that a word is, one from 1 to 64, and puts one line that counts the verdicts. Another
/// word is refused 72 at `0:1`.
pub fn demo<B: Book, K: Sink>(alloc: Global, rules: &B, word: &Text, sink: &mut K) -> Status
    ensures told { Told (Demos (B.kinds rules.now) word.now) NoFront (K.taken sink.old) (K.taken sink.new)
        ⊥ (Rose (K.faults sink.old) (K.faults sink.new)) result }
    ensures later_sink { K.faults sink.old ≤ K.faults sink.new }
{
    match operations(alloc, word.as_slice()) {
        Ok(number) => demo_of(alloc, rules, number, sink),
        Err(stop) => end(alloc, stop, sink),
    }
}

/// The same for a number.
fn demo_of<B: Book, K: Sink>(alloc: Global, rules: &B, number: u32, sink: &mut K) -> Status
    requires some { 1 ≤ number }
    requires few { number ≤ most_operations }
    ensures told { Told (DemosMade (B.kinds rules.now) number) NoFront (K.taken sink.old) (K.taken sink.new)
        ⊥ (Rose (K.faults sink.old) (K.faults sink.new)) result }
    ensures later { K.faults sink.old ≤ K.faults sink.new }
{
    let typed = match made_file(alloc, number) {
        Ok(typed) => typed,
        Err(stop) => return end(alloc, stop, sink),
    };
    let status = put_counts(alloc, rules, &typed, number, sink);
    close(typed);
    status
}
