//! The layers of a file are formatted on an image.

ghost use Rattle.std.specs.Prelude.{◌≡◌, ◌≤◌, IfSome};
ghost use Rattle.ygg_base.specs.Outside.{Rose};
ghost use Rattle.ygg_run_image.specs.ygg_base.Devices.{AttachedTurns, Tells};
ghost use Rattle.ygg_run_image.specs.ygg_type.Typed.{geometry_of};
ghost use Rattle.ygg_run_image.specs.Sight.{Holds, held};
ghost use Rattle.ygg_run_image.specs.Leaving.{FinishTurns, IsFilled, FormatsImage};
ghost use Rattle.ygg_run_image.specs.declared.end.FormatEnd.TheVariants.{Failed};

use crate::end::FormatEnd;
use crate::filling::fill;
use crate::seal::seal;
use crate::size::{LARGEST_BLOCK, block_size};
use std::alloc::Global;
use ygg_base::{Device, Moved, Text};
use ygg_machine::Typed;

/// Seals the attached image, which holds the rows of a format.
fn finish<D: Device>(typed: &Typed, device: &mut D) -> FormatEnd
    requires holds { Holds (geometry_of typed.now.file.disk) (D.images device.old) (D.attached device.old) }
    requires filled { IfSome (held (D.images device.old) (D.attached device.old)) (IsFilled typed.now.file) }
    ensures told { Tells (AttachedTurns (FinishTurns typed.now.file result) (D.attached device.old)) (D.images device.old) (D.images device.new) }
    ensures later { D.faults device.old ≤ D.faults device.new }
    ensures cause { result ≡ Failed → Rose (D.faults device.old) (D.faults device.new) }
{
    let geometry = typed.geometry();
    let size = block_size(geometry) as usize;
    match seal(geometry, &mut [0u8; LARGEST_BLOCK][..size], device) {
        Moved::Done => FormatEnd::Done,
        Moved::Failed => FormatEnd::Failed,
    }
}

/// Creates the image of that name, formats all layers of a file on it, the lowest first, makes all of it stay, and only then writes the sealed header and
/// makes that stay. `Failed` comes only where the device's count of faults has risen. However it ends before the seal is written, and whatever is left of it
/// when power fails, the image isn't sealed; of an image that couldn't be created nothing is said. No other image is changed.
pub fn format<D: Device>(alloc: Global, typed: &Typed, name: &Text, device: &mut D) -> FormatEnd
    ensures told { Tells (FormatsImage typed.now.file name.now result (D.attached device.new)) (D.images device.old) (D.images device.new) }
    ensures later { D.faults device.old ≤ D.faults device.new }
    ensures cause { result ≡ Failed → Rose (D.faults device.old) (D.faults device.new) }
{
    match fill(alloc, typed, name, device) {
        FormatEnd::Done => finish(typed, device),
        FormatEnd::Failed => FormatEnd::Failed,
        FormatEnd::Memory => FormatEnd::Memory,
    }
}
