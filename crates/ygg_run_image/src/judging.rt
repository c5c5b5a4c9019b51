//! An attached image is judged, block by block.

ghost use Rattle.std.specs.Prelude.{◌≡◌, ◌≤◌, ◌<◌, ◌+◌, OnOk, length};
ghost use Rattle.ygg_base.specs.Outside.{Rose};
ghost use Rattle.ygg_base.specs.Devices.{Image, block_at};
ghost use Rattle.ygg_value.specs.Shapes.{IsShape};
ghost use Rattle.ygg_disk.specs.Rows.{IsDiskRow};
ghost use Rattle.ygg_disk.specs.Size.{table_shape};
ghost use Rattle.ygg_run_image.specs.Image.{block_bytes, image_bytes};
ghost use Rattle.ygg_run_image.specs.Judged.{BeginsWith, IsHeaderJudged, IsJudged};
ghost use Rattle.ygg_run_image.specs.Mounting.{Accepts, AreRowsJudged, IsRowJudged, IsSeenAs, IsShown};
ghost use Rattle.ygg_run_image.specs.declared.unmounted.Unmounted.TheVariants as unmounted;

use crate::header::judge_header;
use crate::reason::ImageReason;
use crate::row::is_row_block;
use crate::size::{LARGEST_BLOCK, block_size};
use crate::unmounted::Unmounted;
use ygg_base::{Device, Geometry, Moved};
use ygg_value::Row;

/// Reads the first block of the attached image, if it has one.
fn read_first<D: Device>(geometry: Geometry, bytes: u64, block: &mut [u8], device: &mut D) -> Moved
    requires limits { IsShape (table_shape geometry) }
    requires block { length block.old ≡ block_bytes geometry }
    requires seen { IsSeenAs geometry bytes (D.attached device.old) }
    ensures block { length block.new ≡ block_bytes geometry }
    ensures begins { result ≡ Moved.Done → (image : Image) → IsShown (D.images device.old) (D.attached device.old) bytes image →
        BeginsWith geometry block.new bytes image.view }
    ensures kept { D.images device.new ≡ D.images device.old }
    ensures still { D.attached device.new ≡ D.attached device.old }
    ensures later { D.faults device.old ≤ D.faults device.new }
    ensures cause { result ≡ Moved.Failed → Rose (D.faults device.old) (D.faults device.new) }
{
    if bytes < block_size(geometry) as u64 {
        return Moved::Done;
    }
    device.read(0, block)
}

/// Judges the attached image by its first block and by how many bytes it has. `SpareBits` never comes.
fn judge_first<D: Device>(geometry: Geometry, bytes: u64, device: &mut D) -> Result<(), Unmounted>
    requires limits { IsShape (table_shape geometry) }
    requires seen { IsSeenAs geometry bytes (D.attached device.old) }
    ensures judged { (image : Image) → IsShown (D.images device.old) (D.attached device.old) bytes image →
        Accepts (IsHeaderJudged geometry image.view) result }
    ensures whole { OnOk result (bytes ≡ image_bytes geometry) }
    ensures kept { D.images device.new ≡ D.images device.old }
    ensures still { D.attached device.new ≡ D.attached device.old }
    ensures later { D.faults device.old ≤ D.faults device.new }
    ensures cause { result ≡ Err unmounted.DeviceFailed → Rose (D.faults device.old) (D.faults device.new) }
{
    let size = block_size(geometry) as usize;
    let block = &mut [0u8; LARGEST_BLOCK][..size];
    if let Moved::Failed = read_first(geometry, bytes, block, device) {
        return Err(Unmounted::DeviceFailed);
    }
    match judge_header(geometry, block, bytes) {
        Some(reason) => Err(Unmounted::Refused(reason)),
        None => Ok(()),
    }
}

/// Judges the block of the row at a place of the attached image, which has as many bytes as it is to have, by way of a row and two blocks to spare.
fn judge_row<D: Device>(
    geometry: Geometry,
    place: u16,
    block: &mut [u8],
    row: &mut Row,
    spare: &mut [u8],
    device: &mut D,
) -> Result<(), Unmounted>
    requires limits { IsShape (table_shape geometry) }
    requires block { length block.old ≡ block_bytes geometry }
    requires row { IsDiskRow geometry row.old }
    requires spare { length spare.old ≡ block_bytes geometry }
    requires seen { IsSeenAs geometry (image_bytes geometry) (D.attached device.old) }
    requires within { place < geometry.rows }
    ensures block { length block.new ≡ block_bytes geometry }
    ensures row { IsDiskRow geometry row.new }
    ensures spare { length spare.new ≡ block_bytes geometry }
    ensures judged { (image : Image) → IsShown (D.images device.old) (D.attached device.old) (image_bytes geometry) image →
        Accepts (IsRowJudged geometry (block_at (block_bytes geometry) (place + 1) image.view)) result }
    ensures kept { D.images device.new ≡ D.images device.old }
    ensures still { D.attached device.new ≡ D.attached device.old }
    ensures later { D.faults device.old ≤ D.faults device.new }
    ensures cause { result ≡ Err unmounted.DeviceFailed → Rose (D.faults device.old) (D.faults device.new) }
{
    if let Moved::Failed = device.read(place as u32 + 1, block) {
        return Err(Unmounted::DeviceFailed);
    }
    if is_row_block(geometry, block, row, spare) {
        Ok(())
    } else {
        Err(Unmounted::Refused(ImageReason::SpareBits))
    }
}

/// Judges the blocks of all rows, as `judge_row` does.
fn judge_rows<D: Device>(
    geometry: Geometry,
    block: &mut [u8],
    row: &mut Row,
    spare: &mut [u8],
    device: &mut D,
) -> Result<(), Unmounted>
    requires limits { IsShape (table_shape geometry) }
    requires block { length block.old ≡ block_bytes geometry }
    requires row { IsDiskRow geometry row.old }
    requires spare { length spare.old ≡ block_bytes geometry }
    requires seen { IsSeenAs geometry (image_bytes geometry) (D.attached device.old) }
    ensures judged { (image : Image) → IsShown (D.images device.old) (D.attached device.old) (image_bytes geometry) image →
        Accepts (AreRowsJudged geometry image.view) result }
    ensures kept { D.images device.new ≡ D.images device.old }
    ensures still { D.attached device.new ≡ D.attached device.old }
    ensures later { D.faults device.old ≤ D.faults device.new }
    ensures cause { result ≡ Err unmounted.DeviceFailed → Rose (D.faults device.old) (D.faults device.new) }
{
    for place in 0..geometry.rows {
        judge_row(geometry, place, block, row, spare, device)?;
    }
    Ok(())
}

/// Judges the attached image by way of a row to spare: it is accepted, or refused for the first of the three reasons that it has.
pub(crate) fn judge<D: Device>(
    geometry: Geometry,
    bytes: u64,
    row: &mut Row,
    device: &mut D,
) -> Result<(), Unmounted>
    requires limits { IsShape (table_shape geometry) }
    requires row { IsDiskRow geometry row.old }
    requires seen { IsSeenAs geometry bytes (D.attached device.old) }
    ensures judged { (image : Image) → IsShown (D.images device.old) (D.attached device.old) bytes image →
        Accepts (IsJudged geometry image.view) result }
    ensures whole { OnOk result (bytes ≡ image_bytes geometry) }
    ensures kept { D.images device.new ≡ D.images device.old }
    ensures still { D.attached device.new ≡ D.attached device.old }
    ensures later { D.faults device.old ≤ D.faults device.new }
    ensures cause { result ≡ Err unmounted.DeviceFailed → Rose (D.faults device.old) (D.faults device.new) }
{
    judge_first(geometry, bytes, device)?;
    let size = block_size(geometry) as usize;
    let block = &mut [0u8; LARGEST_BLOCK][..size];
    judge_rows(
        geometry,
        block,
        row,
        &mut [0u8; LARGEST_BLOCK][..size],
        device,
    )
}
