ghost use Rattle.std.specs.Prelude.{◌≡◌, ◌≤◌, ◌↔◌, List, ℕ, length, take, drop, slice_get, Some, IsTrue};
ghost use Rattle.ygg_value.specs.Shapes.{IsShape};
ghost use Rattle.ygg_disk.specs.Size.{table_shape};
ghost use Rattle.ygg_run_image.specs.Image.{block_bytes, header, mark, sizes};
ghost use Rattle.ygg_run_image.specs.Judged.{BeginsWith, IsHeaderJudged};

use crate::reason::ImageReason;
use crate::row::are_equal;
use crate::size::block_size;
use ygg_base::Geometry;

/// The five bytes that tell a disk's size.
fn sizes(geometry: Geometry) -> [u8; 5]
    ensures { result ≡ sizes geometry }
{
    let [rows_high, rows_low] = geometry.rows.to_be_bytes();
    [rows_high, rows_low, 0, geometry.words, geometry.width]
}

/// Fills a block with the header of the disk's image.
pub fn write_header(geometry: Geometry, sealed: bool, block: &mut [u8])
    requires limits { IsShape (table_shape geometry) }
    requires size { length block.old ≡ block_bytes geometry }
    ensures { block.new ≡ header geometry sealed }
{
    let [rows_high, rows_low, words_high, words_low, width] = sizes(geometry);
    let seal = if sealed { 1 } else { 0 };
    let head = [
        b'Y', b'G', b'G', b'I', b'M', b'G', b'1', b'\n', rows_high, rows_low, words_high,
        words_low, width, seal,
    ];
    block.fill(0);
    block[..14].copy_from_slice(&head);
}

/// Whether a block begins with the eight bytes and has a seal of 1.
fn is_sealed(block: &[u8]) -> bool
    requires { 14 ≤ length block.now }
    ensures { IsTrue result ↔ ((take 8 block.now ≡ mark) × (slice_get block.now 13 ≡ Some 1)) }
{
    are_equal(&block[..8], b"YGGIMG1\n") && block[13] == 1
}

/// Whether a block tells the disk's size.
fn is_sized(geometry: Geometry, block: &[u8]) -> bool
    requires { 13 ≤ length block.now }
    ensures { IsTrue result ↔ (take 5 (drop 8 block.now) ≡ sizes geometry) }
{
    are_equal(&block[8..13], &sizes(geometry))
}

/// Judges an image of so many bytes by its first block: whether it is sealed, and then whether it is of the disk and as long as its images are.
/// Where the image is shorter than a block, the bytes of `block` count for nothing. `SpareBits` never comes.
pub fn judge_header(geometry: Geometry, block: &[u8], bytes: u64) -> Option<ImageReason>
    requires limits { IsShape (table_shape geometry) }
    requires size { length block.now ≡ block_bytes geometry }
    ensures { (image : List ℕ) → BeginsWith geometry block.now bytes image → IsHeaderJudged geometry image result }
{
    let size = block_size(geometry) as u64;
    if bytes < size || !is_sealed(block) {
        return Some(ImageReason::Unsealed);
    }
    if !is_sized(geometry, block) {
        return Some(ImageReason::OtherDisk);
    }
    if bytes != (geometry.rows as u64 + 1) * size {
        return Some(ImageReason::OtherDisk);
    }
    None
}
