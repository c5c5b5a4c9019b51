//! An image is attached, judged and flushed.

ghost use Rattle.std.specs.Prelude.{◌≡◌, ◌≤◌, Some, OnOk, IfSome};
ghost use Rattle.ygg_base.specs.Outside.{Rose};
ghost use Rattle.ygg_base.specs.Devices.{Tells};
ghost use Rattle.ygg_value.specs.Shapes.{IsShape};
ghost use Rattle.ygg_disk.specs.Rows.{IsDiskRow};
ghost use Rattle.ygg_disk.specs.Size.{table_shape};
ghost use Rattle.ygg_run_image.specs.Mounting.{Finds, Mounts, whole_image};
ghost use Rattle.ygg_run_image.specs.declared.unmounted.Unmounted.TheVariants as unmounted;

use crate::judging::judge;
use crate::size::block_size;
use crate::unmounted::Unmounted;
use std::alloc::Global;
use ygg_base::{Attach, Device, Geometry, Moved, Text};
use ygg_disk::rows::zero_row;
use ygg_value::Row;

/// Attaches the image of that name and judges it, by way of a row to spare. No image is changed.
fn attach<D: Device>(
    geometry: Geometry,
    row: &mut Row,
    name: &Text,
    device: &mut D,
) -> Result<(), Unmounted>
    requires limits { IsShape (table_shape geometry) }
    requires row { IsDiskRow geometry row.old }
    ensures attached { OnOk result (D.attached device.new ≡ Some (whole_image geometry name.now)) }
    ensures finds { IfSome (D.images device.old) (λ told. Finds geometry name.now told result) }
    ensures kept { D.images device.new ≡ D.images device.old }
    ensures later { D.faults device.old ≤ D.faults device.new }
    ensures cause { result ≡ Err unmounted.DeviceFailed → Rose (D.faults device.old) (D.faults device.new) }
{
    match device.attach(name, block_size(geometry)) {
        Attach::Attached { bytes } => judge(geometry, bytes, row, device),
        Attach::Absent => Err(Unmounted::Absent),
        Attach::Failed => Err(Unmounted::DeviceFailed),
        Attach::Memory => Err(Unmounted::Memory),
    }
}

/// The same for a disk of this size.
fn find<D: Device>(
    alloc: Global,
    geometry: Geometry,
    name: &Text,
    device: &mut D,
) -> Result<(), Unmounted>
    requires { IsShape (table_shape geometry) }
    ensures attached { OnOk result (D.attached device.new ≡ Some (whole_image geometry name.now)) }
    ensures finds { IfSome (D.images device.old) (λ told. Finds geometry name.now told result) }
    ensures kept { D.images device.new ≡ D.images device.old }
    ensures later { D.faults device.old ≤ D.faults device.new }
    ensures cause { result ≡ Err unmounted.DeviceFailed → Rose (D.faults device.old) (D.faults device.new) }
{
    let mut row = zero_row(alloc, geometry)?;
    attach(geometry, &mut row, name, device)
}

/// Attaches the image of that name as that of a disk of this size, and flushes it once it is accepted, so that what an earlier run has left unflushed stays.
/// It is refused where it isn't a sealed image of rows of this disk: unsealed, then of another disk, then with spare bits set. `Absent` comes exactly where
/// the device says so, `DeviceFailed` only where its count of faults has risen. No block is written, and unless the image is accepted nothing is changed.
pub fn mount<D: Device>(
    alloc: Global,
    geometry: Geometry,
    name: &Text,
    device: &mut D,
) -> Result<(), Unmounted>
    requires { IsShape (table_shape geometry) }
    ensures attached { OnOk result (D.attached device.new ≡ Some (whole_image geometry name.now)) }
    ensures told { Tells (Mounts geometry name.now result) (D.images device.old) (D.images device.new) }
    ensures later { D.faults device.old ≤ D.faults device.new }
    ensures cause { result ≡ Err unmounted.DeviceFailed → Rose (D.faults device.old) (D.faults device.new) }
{
    find(alloc, geometry, name, device)?;
    match device.flush() {
        Moved::Done => Ok(()),
        Moved::Failed => Err(Unmounted::DeviceFailed),
    }
}
