ghost use Rattle.std.specs.Prelude.{◌≡◌, ◌≤◌, ◌+◌, ◌++◌, ◌↔◌, length, take, drop, IsTrue};
ghost use Rattle.std.specs.Int.{bytes_high_first};
ghost use Rattle.ygg_value.specs.Shapes.{IsShape};
ghost use Rattle.ygg_disk.specs.Rows.{IsDiskRow};
ghost use Rattle.ygg_disk.specs.Size.{table_shape};
ghost use Rattle.ygg_run_image.specs.Image.{block_bytes, number_in, row_block, words_in};
ghost use Rattle.ygg_run_image.specs.Judged.{AreWords, IsRowBlock};

use crate::size::word_size;
use ygg_base::Geometry;
use ygg_value::{Row, Word, resize, row_read, row_write};

/// Fills a block with a row of the disk, of which each number fits a word.
pub fn encode_row(geometry: Geometry, row: &Row, block: &mut [u8])
    requires limits { IsShape (table_shape geometry) }
    requires row { IsDiskRow geometry row.now }
    requires size { length block.old ≡ block_bytes geometry }
    ensures block { block.new ≡ row_block geometry row.now.words }
    ensures words { AreWords geometry row.now.words }
{
    block.fill(0);
    let size = word_size(geometry);
    for place in 0..geometry.words as usize {
        let word = row_read(row, place_of(place));
        put_number(word.bits, size, place * size, block);
    }
}

/// A place as a word.
fn place_of(place: usize) -> Word
    requires { place ≤ 64 }
    ensures { result.bits ≡ place }
{
    Word {
        width: 8,
        bits: place as u64,
    }
}

/// Puts the low digits of a number into so many bytes of a block, at most 8, from a place on, the highest byte first.
fn put_number(number: u64, size: usize, start: usize, block: &mut [u8])
    requires few { size ≤ 8 }
    requires fits { start + size ≤ length block.old }
    ensures { block.new ≡ take start block.old ++ bytes_high_first size number ++ drop (start + size) block.old }
{
    fill_number(number, &mut block[start..start + size]);
}

/// Fills at most 8 bytes with the low digits of a number, the highest byte first.
fn fill_number(number: u64, bytes: &mut [u8])
    requires { length bytes.old ≤ 8 }
    ensures { bytes.new ≡ bytes_high_first (length bytes.old) number }
{
    let size = bytes.len();
    bytes.copy_from_slice(&number.to_be_bytes()[8 - size..]);
}

/// Puts the row that a block holds into `row`: of each number the low digits, as many as a word has.
pub fn decode_row(geometry: Geometry, block: &[u8], row: &mut Row)
    requires limits { IsShape (table_shape geometry) }
    requires size { length block.now ≡ block_bytes geometry }
    requires row { IsDiskRow geometry row.old }
    ensures { row.new ≡ record { width = geometry.width; words = words_in geometry block.now } }
{
    let size = word_size(geometry);
    for place in 0..geometry.words as usize {
        let start = place * size;
        let word = Word {
            width: 64,
            bits: number_in(&block[start..start + size]),
        };
        row_write(row, place_of(place), resize(word, geometry.width));
    }
}

/// The number that at most 8 bytes are, the highest one first.
fn number_in(bytes: &[u8]) -> u64
    requires { length bytes.now ≤ 8 }
    ensures { result ≡ number_in bytes.now }
{
    let mut number = 0u64;
    for byte in bytes {
        number = number * 256 + *byte as u64;
    }
    number
}

/// Whether a block is that of a row of the disk, by way of a row and a block to spare.
pub fn is_row_block(geometry: Geometry, block: &[u8], row: &mut Row, spare: &mut [u8]) -> bool
    requires limits { IsShape (table_shape geometry) }
    requires size { length block.now ≡ block_bytes geometry }
    requires row { IsDiskRow geometry row.old }
    requires spare { length spare.old ≡ block_bytes geometry }
    ensures judged { IsTrue result ↔ IsRowBlock geometry block.now }
    ensures row { IsDiskRow geometry row.new }
    ensures spare { length spare.new ≡ block_bytes geometry }
{
    decode_row(geometry, block, row);
    encode_row(geometry, row, spare);
    are_equal(block, spare)
}

/// Whether bytes are the same.
pub(crate) fn are_equal(a: &[u8], b: &[u8]) -> bool
    ensures { IsTrue result ↔ (a.now ≡ b.now) }
{
    a == b
}
