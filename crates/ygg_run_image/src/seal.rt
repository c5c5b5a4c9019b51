//! An image is sealed, once all of its rows are written.

ghost use Rattle.std.specs.Prelude.{◌≡◌, ◌≤◌, length, IfSome};
ghost use Rattle.ygg_base.specs.Outside.{Rose};
ghost use Rattle.ygg_base.specs.declared.outside.Moved.TheVariants.{Failed};
ghost use Rattle.ygg_run_image.specs.ygg_base.Devices.{AttachedTurns, Image, Tells};
ghost use Rattle.ygg_run_image.specs.Image.{block_bytes};
ghost use Rattle.ygg_run_image.specs.Sight.{Holds, held};
ghost use Rattle.ygg_run_image.specs.Sealing.{HeaderTurns, IsFresh, SealTurns};

use crate::header::write_header;
use ygg_base::{Device, Geometry, Moved};

/// Writes the header with the seal before the rows of the attached image, which all stay, and makes it stay, by way of a block to spare.
fn put_header<D: Device>(geometry: Geometry, block: &mut [u8], device: &mut D) -> Moved
    requires holds { Holds geometry (D.images device.old) (D.attached device.old) }
    requires stays { IfSome (held (D.images device.old) (D.attached device.old)) (λ i. i.stable ≡ i.view) }
    requires size { length block.old ≡ block_bytes geometry }
    ensures told { Tells (AttachedTurns (HeaderTurns geometry result) (D.attached device.old)) (D.images device.old) (D.images device.new) }
    ensures still { D.attached device.new ≡ D.attached device.old }
    ensures later { D.faults device.old ≤ D.faults device.new }
    ensures cause { result ≡ Failed → Rose (D.faults device.old) (D.faults device.new) }
{
    write_header(geometry, true, block);
    match device.write(0, block) {
        Moved::Done => device.flush(),
        Moved::Failed => Moved::Failed,
    }
}

/// Makes all rows of the attached image stay, which isn't sealed yet, and only then seals it, by way of a block to spare. Where the device fails, neither what
/// is read nor what is left when power fails is sealed, unless it is the whole sealed image.
pub fn seal<D: Device>(geometry: Geometry, block: &mut [u8], device: &mut D) -> Moved
    requires holds { Holds geometry (D.images device.old) (D.attached device.old) }
    requires fresh { IfSome (held (D.images device.old) (D.attached device.old)) (IsFresh geometry) }
    requires size { length block.old ≡ block_bytes geometry }
    ensures told { Tells (AttachedTurns (SealTurns geometry result) (D.attached device.old)) (D.images device.old) (D.images device.new) }
    ensures still { D.attached device.new ≡ D.attached device.old }
    ensures later { D.faults device.old ≤ D.faults device.new }
    ensures cause { result ≡ Failed → Rose (D.faults device.old) (D.faults device.new) }
{
    let kept = device.flush();
    match kept {
        Moved::Done => put_header(geometry, block, device),
        Moved::Failed => Moved::Failed,
    }
}
