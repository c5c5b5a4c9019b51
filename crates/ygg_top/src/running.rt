//! From four names to a run.

ghost use Rattle.std.specs.Prelude.{◌≡◌, ◌≤◌};
ghost use Rattle.ygg_base.specs.Outside.{Rose};
ghost use Rattle.ygg_base.specs.declared.status.Status.TheVariants.{Refused};
ghost use Rattle.ygg_top_command.specs.Breaking.{ToldOn};
ghost use Rattle.ygg_top.specs.Images.{LeavesImage};
ghost use Rattle.ygg_top.specs.Running.{CertifiedBroken, CertifiedLeft, RunLeaves, RunsBroken, RunsCertified, RunsLeft, RunsNamed};

use crate::script::run_script;
use crate::{Book, checked_stored};
use std::alloc::Global;
use ygg_base::{Library, Sink, Status, Text};
use ygg_run_mounted::Device;
use ygg_top_command::{close, end, layer_file, put_all};
use ygg_type::Typed;

/// Runs the script that stands under the name, the fourth word after the command's, on the image of that name, once the text under the second name is a
/// certificate of the layer file. It is refused 73 or 11 at `0:2`, or 21, 22 or 24, and ends the command with `bad NAME ID` where a log is at fault, before the
/// script is fetched.
fn run_certified<B: Book, L: Library, D: Device, K: Sink>(
    alloc: Global,
    rules: &B,
    typed: &Typed,
    certificate: &Text,
    image: &Text,
    script: &Text,
    library: &mut L,
    device: &mut D,
    sink: &mut K,
) -> Status
    ensures told { ToldOn
        (RunsCertified (B.kinds rules.now) (L.files library.old) (D.images device.old) (D.images device.new) typed.now.file certificate.now image.now
        script.now)
        (CertifiedLeft (B.kinds rules.now) (L.files library.old) (D.images device.old) (D.images device.new) typed.now.file certificate.now image.now
        script.now)
        (CertifiedBroken (B.kinds rules.now) (L.files library.old) (D.images device.old) (D.images device.new) typed.now.file certificate.now image.now
        script.now)
        (K.taken sink.old) (K.taken sink.new) (Rose (L.faults library.old) (L.faults library.new)) (Rose (D.faults device.old) (D.faults device.new))
        (Rose (K.faults sink.old) (K.faults sink.new)) result }
    ensures leaves { LeavesImage typed.now.file image.now (D.images device.old) (D.images device.new) }
    ensures untouched { result ≡ Refused → D.images device.new ≡ D.images device.old }
    ensures kept { L.files library.new ≡ L.files library.old }
    ensures later_library { L.faults library.old ≤ L.faults library.new }
    ensures later_device { D.faults device.old ≤ D.faults device.new }
    ensures later_sink { K.faults sink.old ≤ K.faults sink.new }
{
    let (status, line) = match checked_stored(alloc, rules, typed, certificate, library) {
        Ok(checked) => checked,
        Err(stop) => return end(alloc, stop, sink),
    };
    match status {
        Status::Done => run_script(alloc, typed, image, script, library, device, sink),
        _ => put_all(sink, line.as_slice(), status),
    }
}

/// The command `run FILE CERT IMAGE SCRIPT`: checks the certificate of the layer file, reads the script, and attaches and judges the image; only then flushes
/// the device once, wakes the layers and puts `up`, runs each command and puts its answer when it is done, and puts `ran N`. With status 0 each layer refines
/// its specification, and the run extends every history that could have left the image to one that the topmost specification allows. The file is refused 73 or
/// 11 at `0:1`, or 1 to 10; the certificate 73 or 11 at `0:2`, or 21, 22 or 24, and the command ends with 1 and `bad NAME ID` where a log is at fault; the
/// script 73 or 11 at `0:4`, or 41 to 43; and the image 73 or 51 to 53 at `0:3`; in this order. A refused command writes nothing. Where the device fails,
/// `fault device` is put behind the lines that were whole.
pub fn run<B: Book, L: Library, D: Device, K: Sink>(
    alloc: Global,
    rules: &B,
    file: &Text,
    certificate: &Text,
    image: &Text,
    script: &Text,
    library: &mut L,
    device: &mut D,
    sink: &mut K,
) -> Status
    ensures told { ToldOn
        (RunsNamed (B.kinds rules.now) (L.files library.old) (D.images device.old) (D.images device.new) file.now certificate.now image.now script.now)
        (RunsLeft (B.kinds rules.now) (L.files library.old) (D.images device.old) (D.images device.new) file.now certificate.now image.now script.now)
        (RunsBroken (B.kinds rules.now) (L.files library.old) (D.images device.old) (D.images device.new) file.now certificate.now image.now script.now)
        (K.taken sink.old) (K.taken sink.new) (Rose (L.faults library.old) (L.faults library.new)) (Rose (D.faults device.old) (D.faults device.new))
        (Rose (K.faults sink.old) (K.faults sink.new)) result }
    ensures leaves { RunLeaves (L.files library.old) (D.images device.old) (D.images device.new) file.now image.now }
    ensures untouched { result ≡ Refused → D.images device.new ≡ D.images device.old }
    ensures kept { L.files library.new ≡ L.files library.old }
    ensures later_library { L.faults library.old ≤ L.faults library.new }
    ensures later_device { D.faults device.old ≤ D.faults device.new }
    ensures later_sink { K.faults sink.old ≤ K.faults sink.new }
{
    let typed = match layer_file(alloc, file, library) {
        Ok(typed) => typed,
        Err(stop) => return end(alloc, stop, sink),
    };
    let status = run_certified(
        alloc,
        rules,
        &typed,
        certificate,
        image,
        script,
        library,
        device,
        sink,
    );
    close(typed);
    status
}
