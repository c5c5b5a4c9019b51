//! The command `print`.

ghost use Rattle.std.specs.Prelude.{List, ℕ, ◌≡◌, ◌≤◌, IfOk};
ghost use Rattle.ygg_base.specs.Outside.{Rose};
ghost use Rattle.ygg_top_command.specs.ygg_report.Putting.{NoFront};
ghost use Rattle.ygg_top_command.specs.Refusing.{IsLayerFile};
ghost use Rattle.ygg_top_command.specs.Reports.{Told};
ghost use Rattle.ygg_top_command.specs.Standing.{DoesWith};
ghost use Rattle.ygg_top.specs.Printing.{IsPrinted, Prints};

use std::alloc::Global;
use ygg_base::{Library, NoMemory, Sink, Status, Text};
use ygg_print::tokens_are_marks;
use ygg_top_command::{close, end, layer_file, put_all};
use ygg_type::Typed;

/// The canonical text of a layer file. Its only error is out of memory.
fn canonical(alloc: Global, typed: &Typed) -> Result<Text, NoMemory>
    ensures { IfOk result (λ text. (bytes : List ℕ) → IsLayerFile bytes typed.now.file → IsPrinted bytes text) }
{
    tokens_are_marks();
    let text = ygg_print::print(alloc, typed.file())?;
    Ok(text)
}

/// `print FILE`: prints the canonical text of the layer file of this name, with status 0. It is refused 73 or 11 at `0:1`, and 1 to 10 where it is no
/// layer file without a fault.
pub fn print<L: Library, K: Sink>(
    alloc: Global,
    name: &Text,
    library: &mut L,
    sink: &mut K,
) -> Status
    ensures told { Told (DoesWith Prints (L.files library.old) name.now) NoFront (K.taken sink.old) (K.taken sink.new)
        (Rose (L.faults library.old) (L.faults library.new)) (Rose (K.faults sink.old) (K.faults sink.new)) result }
    ensures kept { L.files library.new ≡ L.files library.old }
    ensures later_library { L.faults library.old ≤ L.faults library.new }
    ensures later_sink { K.faults sink.old ≤ K.faults sink.new }
{
    let typed = match layer_file(alloc, name, library) {
        Ok(typed) => typed,
        Err(stop) => return end(alloc, stop, sink),
    };
    let printed = canonical(alloc, &typed);
    close(typed);
    match printed {
        Ok(text) => put_all(sink, text.as_slice(), Status::Done),
        Err(_) => Status::NoMemory,
    }
}
