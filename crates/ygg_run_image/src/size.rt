ghost use Rattle.std.specs.Prelude.{◌≡◌, ◌≤◌, ◌*◌};
ghost use Rattle.ygg_value.specs.Shapes.{IsShape};
ghost use Rattle.ygg_disk.specs.Size.{table_shape};
ghost use Rattle.ygg_run_image.specs.Image.{word_bytes, block_bytes};

use ygg_base::Geometry;

/// The most bytes that a block has: those of a row of 64 words of 64 digits.
pub(crate) const LARGEST_BLOCK: usize = 512;

/// How many bytes a word has in an image: those of its digits, rounded up.
pub(crate) fn word_size(geometry: Geometry) -> usize
    requires { IsShape (table_shape geometry) }
    ensures bytes { result ≡ word_bytes geometry }
    ensures some { 1 ≤ result }
    ensures few { result ≤ 8 }
{
    (geometry.width as usize + 7) / 8
}

/// How many bytes a block of the disk's image has: those of a row, and at least 16.
pub fn block_size(geometry: Geometry) -> u32
    requires { IsShape (table_shape geometry) }
    ensures bytes { result ≡ block_bytes geometry }
    ensures few { result ≤ 512 }
{
    let row = geometry.words as u32 * word_size(geometry) as u32;
    row.max(16)
}
