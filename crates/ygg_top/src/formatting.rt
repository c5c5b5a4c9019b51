//! From two names to an image that is formatted.

ghost use Rattle.std.specs.Prelude.{◌≡◌, ◌≢◌, ◌≤◌};
ghost use Rattle.ygg_base.specs.Outside.{Rose};
ghost use Rattle.ygg_base.specs.declared.status.Status.TheVariants.{Refused};
ghost use Rattle.ygg_run_image.specs.ygg_base.Devices.{Tells};
ghost use Rattle.ygg_top_command.specs.ygg_report.Putting.{NoFront};
ghost use Rattle.ygg_run_image.specs.Leaving.{IsLeft};
ghost use Rattle.ygg_top_command.specs.Breaking.{ToldOn};
ghost use Rattle.ygg_top.specs.Formatting.{FormatsFile, FormatsNamed, FormatsBroken, FormatsLeave, IsNothing};

use std::alloc::Global;
use ygg_base::{Library, Sink, Status, Text};
use ygg_run_image::{Device, FormatEnd};
use ygg_top_command::{close, end, end_broken, layer_file, put_all};
use ygg_type::Typed;

/// Formats the stack of a layer file on the image of that name, and puts the line `formatted`.
fn format_file<D: Device, K: Sink>(
    alloc: Global,
    typed: &Typed,
    image: &Text,
    device: &mut D,
    sink: &mut K,
) -> Status
    ensures told { ToldOn (FormatsFile (D.images device.old) (D.images device.new) image.now typed.now.file) NoFront IsNothing (K.taken sink.old)
        (K.taken sink.new) ⊥ (Rose (D.faults device.old) (D.faults device.new)) (Rose (K.faults sink.old) (K.faults sink.new)) result }
    ensures leaves { Tells (IsLeft typed.now.file image.now (D.attached device.new)) (D.images device.old) (D.images device.new) }
    ensures accepted { result ≢ Refused }
    ensures later_device { D.faults device.old ≤ D.faults device.new }
    ensures later_sink { K.faults sink.old ≤ K.faults sink.new }
{
    match ygg_run_image::format(alloc, typed, image, device) {
        FormatEnd::Done => put_all(sink, b"formatted\n", Status::Done),
        FormatEnd::Failed => end_broken(sink),
        FormatEnd::Memory => Status::NoMemory,
    }
}

/// `format FILE IMAGE`: formats the stack of the layer file of the one name on an image of the other, which is created in the place of one of that name, and
/// prints `formatted`, with status 0. A layer file is refused 73 or 11 at `0:1`, or 1 to 10, before the device is called. Where the device fails,
/// `fault device` is printed, with status 4; then, and where no memory is left, the image isn't sealed unless it is whole.
pub fn format<L: Library, D: Device, K: Sink>(
    alloc: Global,
    file: &Text,
    image: &Text,
    library: &mut L,
    device: &mut D,
    sink: &mut K,
) -> Status
    ensures told { ToldOn (FormatsNamed (L.files library.old) (D.images device.old) (D.images device.new) file.now image.now) NoFront
        (FormatsBroken (L.files library.old) file.now) (K.taken sink.old) (K.taken sink.new) (Rose (L.faults library.old) (L.faults library.new))
        (Rose (D.faults device.old) (D.faults device.new)) (Rose (K.faults sink.old) (K.faults sink.new)) result }
    ensures leaves { FormatsLeave (L.files library.old) (D.images device.old) (D.images device.new) (D.attached device.new) file.now image.now }
    ensures untouched { result ≡ Refused → device.new ≡ device.old }
    ensures kept { L.files library.new ≡ L.files library.old }
    ensures later_library { L.faults library.old ≤ L.faults library.new }
    ensures later_device { D.faults device.old ≤ D.faults device.new }
    ensures later_sink { K.faults sink.old ≤ K.faults sink.new }
{
    let typed = match layer_file(alloc, file, library) {
        Ok(typed) => typed,
        Err(stop) => return end(alloc, stop, sink),
    };
    let status = format_file(alloc, &typed, image, device, sink);
    close(typed);
    status
}
