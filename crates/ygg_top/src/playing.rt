//! From two names to the text of a script.

ghost use Rattle.std.specs.Prelude.{◌≡◌, ◌≤◌, length, IfOk, IfErr};
ghost use Rattle.ygg_base.specs.Outside.{Rose};
ghost use Rattle.ygg_run.specs.ygg_script.Fitting.{IsScriptOf};
ghost use Rattle.ygg_top_command.specs.Refusing.{most_bytes};
ghost use Rattle.ygg_top_command.specs.Reports.{Told};
ghost use Rattle.ygg_top_command.specs.Standing.{DoesWith};
ghost use Rattle.ygg_top.specs.Playing.{StandsScript, IsNoScript, PlaysScript, PlaysStored, PlaysNamed, IsCutPlaying};

use std::alloc::Global;
use ygg_base::{Library, Sink, Status, Text};
use ygg_run::{Script, put_play, read_script};
use ygg_top_command::{CommandStop, MOST_BYTES, close, end, fetched, layer_file};
use ygg_type::Typed;

/// The script for a layer file that stands under the name, the second word after the command's; or why there is none: what stands there is refused 73 or 11 at
/// `0:2`, or 41 to 43 where it is no script of the file.
fn script_for<L: Library>(
    alloc: Global,
    typed: &Typed,
    name: &Text,
    library: &mut L,
) -> Result<Script, CommandStop>
    ensures found { IfOk result (λ script. StandsScript typed.now.file (L.files library.old) name.now script) }
    ensures fits { IfOk result (λ script. IsScriptOf typed.now.file script) }
    ensures few { IfOk result (λ script. length script ≤ most_bytes) }
    ensures none { IfErr result (IsNoScript typed.now.file (L.files library.old) name.now (Rose (L.faults library.old) (L.faults library.new))) }
    ensures kept { L.files library.new ≡ L.files library.old }
    ensures later { L.faults library.old ≤ L.faults library.new }
{
    let text = match fetched(name, MOST_BYTES, 2, library) {
        Ok(text) => text,
        Err(stop) => return Err(stop),
    };
    match read_script(alloc, text.as_slice(), typed) {
        Ok(script) => Ok(script),
        Err(refuse) => Err(CommandStop::of(refuse)),
    }
}

/// Plays a script of a layer file, and puts its text as the play goes on. A stop that isn't reached is refused 44 at its line, before anything is put.
fn play_script<K: Sink>(alloc: Global, typed: &Typed, script: &Script, sink: &mut K) -> Status
    requires fits { IsScriptOf typed.now.file script.now }
    requires few { length script.now ≤ most_bytes }
    ensures told { Told (PlaysScript typed.now.file script.now) (IsCutPlaying (PlaysScript typed.now.file script.now)) (K.taken sink.old) (K.taken sink.new)
        ⊥ (Rose (K.faults sink.old) (K.faults sink.new)) result }
    ensures later { K.faults sink.old ≤ K.faults sink.new }
{
    match put_play(alloc, typed, script, sink) {
        Ok(status) => status,
        Err(at) => end(alloc, CommandStop::Refused(at), sink),
    }
}

/// Plays the script that stands under the name, the second word after the command's, for a layer file, and puts its text.
fn play_for<L: Library, K: Sink>(
    alloc: Global,
    typed: &Typed,
    name: &Text,
    library: &mut L,
    sink: &mut K,
) -> Status
    ensures told { Told (DoesWith (PlaysStored typed.now.file) (L.files library.old) name.now)
        (IsCutPlaying (DoesWith (PlaysStored typed.now.file) (L.files library.old) name.now)) (K.taken sink.old) (K.taken sink.new)
        (Rose (L.faults library.old) (L.faults library.new)) (Rose (K.faults sink.old) (K.faults sink.new)) result }
    ensures kept { L.files library.new ≡ L.files library.old }
    ensures later_library { L.faults library.old ≤ L.faults library.new }
    ensures later_sink { K.faults sink.old ≤ K.faults sink.new }
{
    match script_for(alloc, typed, name, library) {
        Ok(script) => play_script(alloc, typed, &script, sink),
        Err(stop) => end(alloc, stop, sink),
    }
}

/// Plays the script of the one name on the layers of the file of the other, from a format with which all writes are kept, and puts its text line by line as the
/// play goes on. A layer file is refused 73 or 11 at `0:1`, or 1 to 10, before the script is fetched, which is refused 73 or 11 at `0:2`, or 41 to 44 at a line
/// of its own; of a script that is refused nothing else is put. Where no memory is left, a front of the text may have been put.
pub fn play<L: Library, K: Sink>(
    alloc: Global,
    file: &Text,
    script: &Text,
    library: &mut L,
    sink: &mut K,
) -> Status
    ensures told { Told (PlaysNamed (L.files library.old) file.now script.now) (IsCutPlaying (PlaysNamed (L.files library.old) file.now script.now))
        (K.taken sink.old) (K.taken sink.new) (Rose (L.faults library.old) (L.faults library.new)) (Rose (K.faults sink.old) (K.faults sink.new)) result }
    ensures kept { L.files library.new ≡ L.files library.old }
    ensures later_library { L.faults library.old ≤ L.faults library.new }
    ensures later_sink { K.faults sink.old ≤ K.faults sink.new }
{
    let typed = match layer_file(alloc, file, library) {
        Ok(typed) => typed,
        Err(stop) => return end(alloc, stop, sink),
    };
    let status = play_for(alloc, &typed, script, library, sink);
    close(typed);
    status
}
