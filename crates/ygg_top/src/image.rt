//! A script run on an image.

ghost use Rattle.std.specs.Prelude.{◌≡◌, ◌≤◌, None};
ghost use Rattle.ygg_base.specs.Outside.{Rose};
ghost use Rattle.ygg_base.specs.declared.status.Status.TheVariants.{Refused};
ghost use Rattle.ygg_run_mounted.specs.ygg_script.Fitting.{IsScriptOf};
ghost use Rattle.ygg_run_mounted.specs.ygg_script.Plain.{plain_of};
ghost use Rattle.ygg_run_mounted.specs.Extending.{HasRun};
ghost use Rattle.ygg_top_command.specs.Breaking.{ToldOn};
ghost use Rattle.ygg_top.specs.Images.{BrokenBy, LeavesImage, LeftBy, RunsImage};

use std::alloc::Global;
use ygg_base::{Reason, Refusal, Sink, Status, Text};
use ygg_run_mounted::{Device, RunEnd, Script};
use ygg_top_command::{CommandStop, end, end_broken};
use ygg_type::Typed;

/// The refusal of an image by this number.
fn refused(number: u8) -> Refusal
    ensures { result ≡ record { number = number; line = 0; column = 3 } }
{
    Refusal {
        number,
        line: 0,
        column: 3,
    }
}

/// Runs a script on the image of that name, the third word after the command's, and puts its lines. An image that isn't there is refused 73 at `0:3`, one that
/// isn't a sealed image of rows of the disk 51 to 53.
pub(crate) fn run_image<D: Device, K: Sink>(
    alloc: Global,
    typed: &Typed,
    script: &Script,
    name: &Text,
    device: &mut D,
    sink: &mut K,
) -> Status
    requires fits { IsScriptOf typed.now.file script.now }
    requires plain { plain_of script.now ≡ None }
    ensures told { ToldOn (RunsImage typed.now.file name.now (D.images device.old) (D.images device.new) script.now (HasRun typed.now.file))
        (LeftBy typed.now.file name.now (D.images device.old) (D.images device.new) script.now)
        (BrokenBy typed.now.file name.now (D.images device.old) (D.images device.new) script.now)
        (K.taken sink.old) (K.taken sink.new) ⊥ (Rose (D.faults device.old) (D.faults device.new)) (Rose (K.faults sink.old) (K.faults sink.new)) result }
    ensures leaves { LeavesImage typed.now.file name.now (D.images device.old) (D.images device.new) }
    ensures untouched { result ≡ Refused → D.images device.new ≡ D.images device.old }
    ensures later_device { D.faults device.old ≤ D.faults device.new }
    ensures later_sink { K.faults sink.old ≤ K.faults sink.new }
{
    match ygg_run_mounted::run(alloc, typed, script, name, device, sink) {
        RunEnd::Done => Status::Done,
        RunEnd::Refused(number) => end(alloc, CommandStop::Refused(refused(number)), sink),
        RunEnd::Absent => end(alloc, CommandStop::Refused(Reason::Absent.at(0, 3)), sink),
        RunEnd::DeviceFailed => end_broken(sink),
        RunEnd::SinkFailed => Status::Fault,
        RunEnd::Memory => Status::NoMemory,
    }
}
