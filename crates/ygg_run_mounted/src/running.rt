//! The image is mounted, and the script run on the layers over it.

ghost use Rattle.std.specs.Prelude.{◌≡◌, ◌≤◌, None};
ghost use Rattle.ygg_base.specs.Outside.{Rose};
ghost use Rattle.ygg_run_commands.specs.ygg_machine.Grounded.{HasRows};
ghost use Rattle.ygg_run_commands.specs.Extending.{RunsExtend};
ghost use Rattle.ygg_run_mounted.specs.Errand.{RunsCommands, SuitsFile};
ghost use Rattle.ygg_run_image.specs.Sight.{Holds};
ghost use Rattle.ygg_run_commands.specs.ygg_type.Typed.{geometry_of};
ghost use Rattle.ygg_run_mounted.specs.Ran.{RanSo};
ghost use Rattle.ygg_run_commands.specs.ygg_script.Fitting.{IsScriptOf};
ghost use Rattle.ygg_run_commands.specs.ygg_script.Plain.{plain_of};
ghost use Rattle.ygg_run_mounted.specs.Ending.{RunsTo, end_of, end_unmounted};

use crate::commands::Commands;
use crate::run_end::RunEnd;
use std::alloc::Global;
use ygg_base::{Sink, Text};
use ygg_run_commands::law::runs_extend;
use ygg_run_commands::{Command, Ground, RunHalted, Script, Typed};
use ygg_run_image::{Device, DeviceGround, Unmounted, images_are_of_rows, mount, on_stack};

/// Runs the commands of a script on the layers of a file over a ground, and gives the ground back.
fn run_over<G: Ground + Drop, K: Sink>(
    alloc: Global,
    typed: &Typed,
    script: &[Command],
    ground: G,
    sink: &mut K,
) -> (G, Result<(), RunHalted>)
    requires suits { SuitsFile typed.now.file script.now }
    requires rows { HasRows G.means typed.now.file ground }
    ensures run { RunsCommands G.means typed.now.file script.now ground result.0 0 0 (K.taken sink.old) (K.taken sink.new)
        (K.faults sink.old) (K.faults sink.new) result.1 }
    ensures extends { RunsExtend G.means }
{
    runs_extend::<G>();
    let mut commands = Commands {
        script,
        sink,
        ended: Err(RunHalted::Memory),
    };
    let ground = on_stack(alloc, typed, ground, &mut commands);
    (ground, commands.ended)
}

/// Runs the commands of a script on the layers of a file over the disk that a device holds.
fn run_ground<'a, D: Device, K: Sink>(
    alloc: Global,
    typed: &Typed,
    script: &[Command],
    ground: DeviceGround<'a, D>,
    sink: &mut K,
) -> (DeviceGround<'a, D>, Result<(), RunHalted>)
    requires suits { SuitsFile typed.now.file script.now }
    requires geometry { ground.geometry ≡ geometry_of typed.now.file.disk }
    ensures same_reference { result.0.device.ghost_name ≡ ground.entry.device.ghost_name }
    ensures ran { RanSo typed.now.file script.now (D.images ground.entry.device.now) (D.images result.0.device.now) (D.attached ground.entry.device.now)
        (K.taken sink.old) (K.taken sink.new) (Rose (D.faults ground.entry.device.now) (D.faults result.0.device.now))
        (Rose (K.faults sink.old) (K.faults sink.new)) result.1 }
    ensures later_device { D.faults ground.entry.device.now ≤ D.faults result.0.device.now }
    ensures later_sink { K.faults sink.old ≤ K.faults sink.new }
{
    // the file has no type error, and derives
    let _ = typed.file();
    images_are_of_rows();
    run_over(alloc, typed, script, ground, sink)
}

/// The same over a device that holds the disk.
fn run_mounted<D: Device, K: Sink>(
    alloc: Global,
    typed: &Typed,
    script: &[Command],
    device: &mut D,
    sink: &mut K,
) -> Result<(), RunHalted>
    requires suits { SuitsFile typed.now.file script.now }
    requires holds { Holds (geometry_of typed.now.file.disk) (D.images device.old) (D.attached device.old) }
    ensures ran { RanSo typed.now.file script.now (D.images device.old) (D.images device.new) (D.attached device.old) (K.taken sink.old) (K.taken sink.new)
        (Rose (D.faults device.old) (D.faults device.new)) (Rose (K.faults sink.old) (K.faults sink.new)) result }
    ensures later_device { D.faults device.old ≤ D.faults device.new }
    ensures later_sink { K.faults sink.old ≤ K.faults sink.new }
{
    let ground = DeviceGround::new(alloc, device, typed.geometry());
    let (ground, ended) = run_ground(alloc, typed, script, ground, sink);
    ground.into_device();
    ended
}

/// How a run ends on an image that wasn't mounted.
fn not_mounted(why: Unmounted) -> RunEnd
    ensures { result ≡ end_unmounted why }
{
    match why {
        Unmounted::Refused(reason) => RunEnd::Refused(reason.number()),
        Unmounted::Absent => RunEnd::Absent,
        Unmounted::DeviceFailed => RunEnd::DeviceFailed,
        Unmounted::Memory => RunEnd::Memory,
    }
}

/// How a run ends on an image that was mounted.
fn ended(ended: Result<(), RunHalted>) -> RunEnd
    ensures { result ≡ end_of ended }
{
    match ended {
        Ok(()) => RunEnd::Done,
        Err(RunHalted::DeviceFailed) => RunEnd::DeviceFailed,
        Err(RunHalted::SinkFailed) => RunEnd::SinkFailed,
        Err(RunHalted::Memory) => RunEnd::Memory,
    }
}

/// Runs a script on the layers of a file over the image of that name: the image is attached and judged, and refused 51 where it isn't sealed, then 52 where it
/// is of another disk, then 53 where spare bits are set. Only then the device is flushed once, the layers are woken and `up` is put; each command is run and
/// its line put when it is done; and `ran N` is put. `Absent` comes exactly where the device has no such image, `DeviceFailed` and `SinkFailed` only where that
/// count of faults has risen. What a run that is given up leaves is what a stop at that call may leave.
pub fn run<D: Device, K: Sink>(
    alloc: Global,
    typed: &Typed,
    script: &Script,
    name: &Text,
    device: &mut D,
    sink: &mut K,
) -> RunEnd
    requires fits { IsScriptOf typed.now.file script.now }
    requires plain { plain_of script.now ≡ None }
    ensures runs { RunsTo typed.now.file script.now name.now (D.images device.old) (D.images device.new) (K.taken sink.old) (K.taken sink.new)
        (Rose (D.faults device.old) (D.faults device.new)) (Rose (K.faults sink.old) (K.faults sink.new)) result }
    ensures later_device { D.faults device.old ≤ D.faults device.new }
    ensures later_sink { K.faults sink.old ≤ K.faults sink.new }
{
    match mount(alloc, typed.geometry(), name, device) {
        Ok(()) => ended(run_mounted(alloc, typed, script.as_slice(), device, sink)),
        Err(why) => not_mounted(why),
    }
}
