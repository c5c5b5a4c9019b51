//! Rows in the blocks of an attached image.

ghost use Rattle.std.specs.Prelude.{◌≡◌, ◌≤◌, ◌<◌, ◌+◌, IfSome, length, replicate};
ghost use Rattle.ygg_base.specs.Outside.{Rose};
ghost use Rattle.ygg_base.specs.Devices.{AttachedTurns, IsBlock, Tells};
ghost use Rattle.ygg_value.specs.Shapes.{IsShape};
ghost use Rattle.ygg_value.specs.Values.{table_read};
ghost use Rattle.ygg_disk.specs.Rows.{IsDiskRow};
ghost use Rattle.ygg_disk.specs.Size.{table_shape};
ghost use Rattle.ygg_run_image.specs.Image.{block_bytes, rows_in};
ghost use Rattle.ygg_run_image.specs.Judged.{AreWords};
ghost use Rattle.ygg_run_image.specs.Sight.{Holds, held};
ghost use Rattle.ygg_run_image.specs.Turning.{FlushesDisk, WritesBlock, WritesRow};

use crate::row::{decode_row, encode_row};
use crate::size::{LARGEST_BLOCK, block_size};
use ygg_base::{Device, DiskKind, Geometry, Moved};
use ygg_value::Row;

/// How many bytes a block of the disk that is held has.
#[tactic(auto, using(crate::proofs::Held::limits_here))]
fn held_size<D: Device>(device: &D, geometry: Geometry) -> usize
    requires { ∥ Holds geometry (D.images device.now) (D.attached device.now) ∥₁ }
    ensures bytes { result ≡ block_bytes geometry }
    ensures few { result ≤ 512 }
{
    block_size(geometry) as usize
}

/// Does nothing that counts. That it can be called says that each number of the row fits a word.
pub(crate) fn known_row(geometry: Geometry, row: &Row)
    requires limits { IsShape (table_shape geometry) }
    requires row { IsDiskRow geometry row.now }
    ensures { AreWords geometry row.now.words }
{
    let size = block_size(geometry) as usize;
    encode_row(geometry, row, &mut [0u8; LARGEST_BLOCK][..size]);
}

/// Reads the row at a place that the disk has, by way of a block.
#[tactic(auto, using(crate::proofs::Held::limits_here, crate::proofs::Held::block_here))]
fn read_block<D: Device>(
    device: &mut D,
    geometry: Geometry,
    at: u32,
    row: &mut Row,
    block: &mut [u8],
) -> Moved
    requires held { ∥ Holds geometry (D.images device.old) (D.attached device.old) ∥₁ }
    requires place { at < geometry.rows }
    requires row { IsDiskRow geometry row.old }
    requires block { length block.old ≡ block_bytes geometry }
    ensures told { result ≡ Moved.Done → IfSome (held (D.images device.old) (D.attached device.old))
        (λ image. row.new ≡ table_read (rows_in geometry image.view) at) }
    ensures row { IsDiskRow geometry row.new }
    ensures kept { D.images device.new ≡ D.images device.old }
    ensures still { D.attached device.new ≡ D.attached device.old }
    ensures later { D.faults device.old ≤ D.faults device.new }
    ensures cause { result ≡ Moved.Failed → Rose (D.faults device.old) (D.faults device.new) }
{
    match device.read(at + 1, block) {
        Moved::Done => {
            decode_row(geometry, block, row);
            Moved::Done
        }
        Moved::Failed => Moved::Failed,
    }
}

/// Reads the row at a place into one of zeros, which stays so past the end.
pub(crate) fn read_row<D: Device>(
    device: &mut D,
    geometry: Geometry,
    at: u64,
    row: &mut Row,
) -> Moved
    requires held { ∥ Holds geometry (D.images device.old) (D.attached device.old) ∥₁ }
    requires zeros { row.old ≡ record { width = geometry.width; words = replicate geometry.words 0 } }
    ensures told { result ≡ Moved.Done → IfSome (held (D.images device.old) (D.attached device.old))
        (λ image. row.new ≡ table_read (rows_in geometry image.view) at) }
    ensures row { IsDiskRow geometry row.new }
    ensures kept { D.images device.new ≡ D.images device.old }
    ensures still { D.attached device.new ≡ D.attached device.old }
    ensures later { D.faults device.old ≤ D.faults device.new }
    ensures cause { result ≡ Moved.Failed → Rose (D.faults device.old) (D.faults device.new) }
{
    if at >= geometry.rows as u64 {
        return Moved::Done;
    }
    let size = held_size(device, geometry);
    read_block(
        device,
        geometry,
        at as u32,
        row,
        &mut [0u8; LARGEST_BLOCK][..size],
    )
}

/// Writes the block at a place that the disk has, on a synchronous disk with a flush.
fn write_block<D: Device>(device: &mut D, kind: DiskKind, place: u32, block: &[u8]) -> Moved
    requires { IsBlock (D.attached device.old) place (length block.now) }
    ensures turns { Tells (AttachedTurns (WritesBlock kind place block.now result) (D.attached device.old)) (D.images device.old) (D.images device.new) }
    ensures still { D.attached device.new ≡ D.attached device.old }
    ensures later { D.faults device.old ≤ D.faults device.new }
    ensures cause { result ≡ Moved.Failed → Rose (D.faults device.old) (D.faults device.new) }
{
    match (device.write(place, block), kind) {
        (Moved::Done, DiskKind::Sync) => device.flush(),
        (moved, _) => moved,
    }
}

/// Writes the row at a place that the disk has, by way of a block.
#[tactic(auto, using(crate::proofs::Held::limits_here, crate::proofs::Held::block_here))]
fn put_row<D: Device>(
    device: &mut D,
    geometry: Geometry,
    at: u32,
    row: &Row,
    block: &mut [u8],
) -> Moved
    requires held { ∥ Holds geometry (D.images device.old) (D.attached device.old) ∥₁ }
    requires place { at < geometry.rows }
    requires row { IsDiskRow geometry row.now }
    requires block { length block.old ≡ block_bytes geometry }
    ensures turns { Tells (AttachedTurns (WritesRow geometry at row.now result) (D.attached device.old)) (D.images device.old) (D.images device.new) }
    ensures still { D.attached device.new ≡ D.attached device.old }
    ensures later { D.faults device.old ≤ D.faults device.new }
    ensures cause { result ≡ Moved.Failed → Rose (D.faults device.old) (D.faults device.new) }
{
    encode_row(geometry, row, block);
    write_block(device, geometry.kind, at + 1, block)
}

/// Writes the row at a place, on a synchronous disk with a flush; past the end nothing is done.
pub(crate) fn write_row<D: Device>(device: &mut D, geometry: Geometry, at: u64, row: &Row) -> Moved
    requires held { ∥ Holds geometry (D.images device.old) (D.attached device.old) ∥₁ }
    requires row { IsDiskRow geometry row.now }
    ensures turns { Tells (AttachedTurns (WritesRow geometry at row.now result) (D.attached device.old)) (D.images device.old) (D.images device.new) }
    ensures held { ∥ Holds geometry (D.images device.new) (D.attached device.new) ∥₁ }
    ensures still { D.attached device.new ≡ D.attached device.old }
    ensures later { D.faults device.old ≤ D.faults device.new }
    ensures cause { result ≡ Moved.Failed → Rose (D.faults device.old) (D.faults device.new) }
{
    if at >= geometry.rows as u64 {
        return Moved::Done;
    }
    let size = held_size(device, geometry);
    put_row(
        device,
        geometry,
        at as u32,
        row,
        &mut [0u8; LARGEST_BLOCK][..size],
    )
}

/// Makes all that was written stable, which it is already on a synchronous disk.
pub(crate) fn flush_rows<D: Device>(device: &mut D, geometry: Geometry) -> Moved
    requires held { ∥ Holds geometry (D.images device.old) (D.attached device.old) ∥₁ }
    ensures turns { Tells (AttachedTurns (FlushesDisk geometry.kind result) (D.attached device.old)) (D.images device.old) (D.images device.new) }
    ensures held { ∥ Holds geometry (D.images device.new) (D.attached device.new) ∥₁ }
    ensures still { D.attached device.new ≡ D.attached device.old }
    ensures later { D.faults device.old ≤ D.faults device.new }
    ensures cause { result ≡ Moved.Failed → Rose (D.faults device.old) (D.faults device.new) }
{
    match geometry.kind {
        DiskKind::Sync => Moved::Done,
        DiskKind::Async => device.flush(),
    }
}
