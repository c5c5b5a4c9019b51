//! Images in memory.

ghost use Rattle.std.specs.Prelude.{◌≡◌, ◌+◌, ◌*◌, ◌<◌, ◌≤◌, ◌^◌, if◌then◌else◌, length, take};
ghost use Rattle.std.specs.Prelude.{drop, replicate, Some, None, IfOk, OnErr, IfSome, IsNone, All, slice_get};
ghost use Rattle.ygg_base.specs.Devices.{image_of, blocks_in, block_at, Writes, Flushes, Reads, IsBlock};
ghost use Rattle.ygg_base.specs.Ram.{
  images_in,
  attachment_of,
  ArePlaced,
  AreSeen,
  AreTurned,
  HaveLost,
  IsAdded,
  IsEven,
  IsPlaceOf,
  IsSeenAs,
  IsTurned,
  put_at,
};

use crate::{Moved, NoMemory, Text};
use std::alloc::Global;

/// An image: its bytes as they are read, and those that are left when power fails.
#[derive(Drop)]
pub(crate) struct Stored {
    pub name: Text,
    pub view: Vec<u8>,
    pub stable: Vec<u8>,
}

/// The image at a place of a list, seen as so many blocks of so many bytes.
#[derive(Clone, Copy, Drop)]
pub(crate) struct Place {
    pub place: usize,
    pub size: u32,
    pub count: u32,
}

/// The place of the first image of that name.
fn place_of(stored: &[Stored], name: &[u8]) -> Option<usize>
    ensures { IsPlaceOf stored.now name.now result }
{
    for (place, image) in stored.iter().enumerate() {
        if image.name.as_slice() == name {
            return Some(place);
        }
    }
    None
}

/// How many blocks of a size so many bytes are, rounded down, and at most as many as four bytes can number.
pub fn blocks_in(size: u32, bytes: u64) -> u32
    requires { 0 < size }
    ensures count { result ≡ blocks_in size bytes }
    ensures fits { result * size ≤ bytes }
{
    let count = bytes / size as u64;
    count.min(u32::MAX as u64) as u32
}

/// So many zeros. Its only error is out of memory.
fn zeros(alloc: Global, count: usize) -> Result<Vec<u8>, NoMemory>
    ensures { IfOk result (λ bytes. bytes.items ≡ replicate count 0) }
{
    let bytes = vec![in alloc; 0u8; count]?;
    Ok(bytes)
}

/// An image of so many bytes, all of them zeros. Its only error is out of memory.
pub(crate) fn blank(alloc: Global, name: &Text, count: usize) -> Result<Stored, NoMemory>
    ensures named { IfOk result (λ image. image.name ≡ name.now) }
    ensures view { IfOk result (λ image. image.view.items ≡ replicate count 0) }
    ensures stable { IfOk result (λ image. image.stable.items ≡ replicate count 0) }
{
    let name = name.copy(alloc)?;
    let view = zeros(alloc, count)?;
    let stable = zeros(alloc, count)?;
    Ok(Stored { name, view, stable })
}

/// Where a block begins among blocks of a size.
pub(crate) fn start_of(block: u32, size: u32) -> usize
    ensures { result ≡ block * size }
{
    block as usize * size as usize
}

/// Copies bytes from a place on into a slice.
fn copy_out(bytes: &[u8], start: usize, into: &mut [u8])
    requires { start + length into.old ≤ length bytes.now }
    ensures { into.new ≡ take (length into.old) (drop start bytes.now) }
{
    into.copy_from_slice(&bytes[start..start + into.len()]);
}

/// Copies a slice into the midst of bytes, from a place on.
fn copy_in(bytes: &mut [u8], start: usize, from: &[u8])
    requires { start + length from.now ≤ length bytes.old }
    ensures { bytes.new ≡ put_at start from.now bytes.old }
{
    bytes[start..start + from.len()].copy_from_slice(from);
}

/// Reads a block of the image at the place.
fn read_at(stored: &[Stored], p: Place, block: u32, into: &mut [u8])
    requires placed { ArePlaced stored.now p }
    requires block { block < p.count }
    requires size { length into.old ≡ p.size }
    ensures { (s : Stored) → slice_get stored.now p.place ≡ Some s → into.new ≡ block_at p.size block s.view.items }
{
    let start = start_of(block, p.size);
    copy_out(stored[p.place].view.as_slice(), start, into);
}

/// Writes bytes of an image from a place on, into what is read; and, where they reach it, also into what is left when power fails.
fn put(image: &mut Stored, start: usize, from: &[u8], reaches: bool)
    requires fits { start + length from.now ≤ length image.old.view.items }
    requires even { IsEven image.old }
    ensures named { image.new.name ≡ image.old.name }
    ensures view { image.new.view.items ≡ put_at start from.now image.old.view.items }
    ensures stable { image.new.stable.items ≡ (if reaches then put_at start from.now image.old.stable.items else image.old.stable.items) }
{
    copy_in(image.view.as_mut_slice(), start, from);
    if reaches {
        copy_in(image.stable.as_mut_slice(), start, from);
    }
}

/// Makes what is read of an image what is left of it when power fails.
fn keep(image: &mut Stored)
    requires { IsEven image.old }
    ensures named { image.new.name ≡ image.old.name }
    ensures view { image.new.view.items ≡ image.old.view.items }
    ensures stable { image.new.stable.items ≡ image.old.view.items }
{
    image
        .stable
        .as_mut_slice()
        .copy_from_slice(image.view.as_slice());
}

/// Writes a block of the image at the place, which stays when power fails where it reaches so far.
fn write_at(stored: &mut Vec<Stored>, p: Place, block: u32, from: &[u8], reaches: bool)
    requires even { All IsEven stored.old.items }
    requires placed { ArePlaced stored.old.items p }
    requires block { block < p.count }
    requires size { length from.now ≡ p.size }
    ensures { IsTurned (Writes block from.now Moved.Done) p stored.old.items stored.new.items }
{
    let start = start_of(block, p.size);
    put(&mut stored[p.place], start, from, reaches);
}

/// Makes all blocks of the image at the place stay when power fails.
fn keep_at(stored: &mut Vec<Stored>, p: Place)
    requires even { All IsEven stored.old.items }
    requires placed { ArePlaced stored.old.items p }
    ensures { IsTurned (Flushes Moved.Done) p stored.old.items stored.new.items }
{
    keep(&mut stored[p.place]);
}

/// Reads a block of the attached image.
pub(crate) fn read_attached(stored: &[Stored], attached: Option<Place>, block: u32, into: &mut [u8])
    requires seen { AreSeen stored.now attached }
    requires block { IsBlock (attachment_of stored.now attached) block (length into.old) }
    ensures { Reads block (Some (images_in stored.now)) (attachment_of stored.now attached) Moved.Done into.new }
{
    if let Some(p) = attached {
        read_at(stored, p, block, into);
    }
}

/// Writes a block of the attached image, which stays when power fails where it reaches so far.
pub(crate) fn write_attached(
    stored: &mut Vec<Stored>,
    attached: Option<Place>,
    block: u32,
    from: &[u8],
    reaches: bool,
)
    requires even { All IsEven stored.old.items }
    requires seen { AreSeen stored.old.items attached }
    requires block { IsBlock (attachment_of stored.old.items attached) block (length from.now) }
    ensures { AreTurned (Writes block from.now Moved.Done) attached stored.old.items stored.new.items }
{
    if let Some(p) = attached {
        write_at(stored, p, block, from, reaches);
    }
}

/// Makes all blocks of the attached image stay when power fails.
pub(crate) fn keep_attached(stored: &mut Vec<Stored>, attached: Option<Place>)
    requires even { All IsEven stored.old.items }
    requires seen { AreSeen stored.old.items attached }
    ensures { AreTurned (Flushes Moved.Done) attached stored.old.items stored.new.items }
{
    if let Some(p) = attached {
        keep_at(stored, p);
    }
}

/// The image of that name, seen as blocks of a size, and how many bytes it has.
pub(crate) fn seen_as(stored: &[Stored], name: &[u8], size: u32) -> Option<(Place, u64)>
    requires size { 0 < size }
    requires even { All IsEven stored.now }
    ensures found { IfSome result (λ found. IsSeenAs stored.now name.now size found.0 found.1) }
    ensures none { IsNone result → image_of (images_in stored.now) name.now ≡ None }
{
    let Some(place) = place_of(stored, name) else {
        return None;
    };
    let bytes = stored[place].view.as_slice().len() as u64;
    let count = blocks_in(size, bytes);
    Some((Place { place, size, count }, bytes))
}

/// Puts an image in the place of the first one of its name, or at the end where there is none, and says where it stands. Its only error is out of memory, after
/// which no image has changed.
pub(crate) fn add(stored: &mut Vec<Stored>, image: Stored) -> Result<usize, NoMemory>
    requires even { All IsEven stored.old.items }
    requires image { IsEven image }
    ensures ok { IfOk result (IsAdded stored.old.items image stored.new.items) }
    ensures err { OnErr result (stored.new.items ≡ stored.old.items) }
{
    match place_of(stored.as_slice(), image.name.as_slice()) {
        Some(place) => {
            stored[place] = image;
            Ok(place)
        }
        None => {
            let place = stored.as_slice().len();
            stored.push(image)?;
            Ok(place)
        }
    }
}

/// Makes what is left of an image when power fails what is read of it.
fn restore(image: &mut Stored)
    requires { IsEven image.old }
    ensures named { image.new.name ≡ image.old.name }
    ensures view { image.new.view.items ≡ image.old.stable.items }
    ensures stable { image.new.stable.items ≡ image.old.stable.items }
{
    image
        .view
        .as_mut_slice()
        .copy_from_slice(image.stable.as_slice());
}

/// The same for all images.
pub(crate) fn restore_all(stored: &mut Vec<Stored>)
    requires { All IsEven stored.old.items }
    ensures { HaveLost (length stored.old.items) stored.old.items stored.new.items }
{
    for place in 0..stored.as_slice().len() {
        restore(&mut stored[place]);
    }
}
