//! A script that is fetched, and run.

ghost use Rattle.std.specs.Prelude.{◌≡◌, ◌≤◌, None, IfOk, IfErr};
ghost use Rattle.ygg_base.specs.Outside.{Rose};
ghost use Rattle.ygg_base.specs.declared.status.Status.TheVariants.{Refused};
ghost use Rattle.ygg_run_mounted.specs.ygg_script.Fitting.{IsScriptOf};
ghost use Rattle.ygg_run_mounted.specs.ygg_script.Plain.{plain_of};
ghost use Rattle.ygg_run_mounted.specs.Extending.{HasRun};
ghost use Rattle.ygg_top_command.specs.Breaking.{ToldOn};
ghost use Rattle.ygg_top.specs.Images.{LeavesImage};
ghost use Rattle.ygg_top.specs.Scripts.{IsNoScript, RunsScript, ScriptBroken, ScriptLeft, StandsPlain};

use crate::image::run_image;
use std::alloc::Global;
use ygg_base::{Library, Sink, Status, Text};
use ygg_run_mounted::{Device, Script, plain_script, read_script};
use ygg_top_command::{CommandStop, MOST_BYTES, end, fetched};
use ygg_type::Typed;

/// The script for a layer file that stands under the name, the fourth word after the command's; or why there is none: what stands there is refused 73 or 11 at
/// `0:4`, 41 to 43 where it is no script of the file, or else 41 at its first line that is `lost`, `fail` or `keep`.
fn script_for<L: Library>(
    alloc: Global,
    typed: &Typed,
    name: &Text,
    library: &mut L,
) -> Result<Script, CommandStop>
    ensures found { IfOk result (λ script. StandsPlain typed.now.file (L.files library.old) name.now script) }
    ensures fits { IfOk result (λ script. IsScriptOf typed.now.file script) }
    ensures plain { IfOk result (λ script. plain_of script ≡ None) }
    ensures none { IfErr result (IsNoScript typed.now.file (L.files library.old) name.now (Rose (L.faults library.old) (L.faults library.new))) }
    ensures kept { L.files library.new ≡ L.files library.old }
    ensures later { L.faults library.old ≤ L.faults library.new }
{
    let text = match fetched(name, MOST_BYTES, 4, library) {
        Ok(text) => text,
        Err(stop) => return Err(stop),
    };
    let script = match read_script(alloc, text.as_slice(), typed) {
        Ok(script) => script,
        Err(refuse) => return Err(CommandStop::of(refuse)),
    };
    match plain_script(&script) {
        None => Ok(script),
        Some(at) => Err(CommandStop::Refused(at)),
    }
}

/// Runs the script that stands under the name, the fourth word after the command's, on the image of that name.
pub(crate) fn run_script<L: Library, D: Device, K: Sink>(
    alloc: Global,
    typed: &Typed,
    image: &Text,
    script: &Text,
    library: &mut L,
    device: &mut D,
    sink: &mut K,
) -> Status
    ensures told { ToldOn
        (RunsScript typed.now.file (L.files library.old) image.now script.now (D.images device.old) (D.images device.new) (HasRun typed.now.file))
        (ScriptLeft typed.now.file (L.files library.old) image.now script.now (D.images device.old) (D.images device.new))
        (ScriptBroken typed.now.file (L.files library.old) image.now script.now (D.images device.old) (D.images device.new))
        (K.taken sink.old) (K.taken sink.new) (Rose (L.faults library.old) (L.faults library.new)) (Rose (D.faults device.old) (D.faults device.new))
        (Rose (K.faults sink.old) (K.faults sink.new)) result }
    ensures leaves { LeavesImage typed.now.file image.now (D.images device.old) (D.images device.new) }
    ensures untouched { result ≡ Refused → D.images device.new ≡ D.images device.old }
    ensures kept { L.files library.new ≡ L.files library.old }
    ensures later_library { L.faults library.old ≤ L.faults library.new }
    ensures later_device { D.faults device.old ≤ D.faults device.new }
    ensures later_sink { K.faults sink.old ≤ K.faults sink.new }
{
    match script_for(alloc, typed, script, library) {
        Ok(commands) => run_image(alloc, typed, &commands, image, device, sink),
        Err(stop) => end(alloc, stop, sink),
    }
}
