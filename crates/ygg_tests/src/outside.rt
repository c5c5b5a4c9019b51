//! Files, images in files and standard output.

ghost use Rattle.std.specs.Prelude.{◌≡◌, ◌<◌, length};

use crate::devices::{is_got, put};
use std::alloc::Global;
use std::fs;
use std::io::{self, Write};
use ygg_base::{Attach, Device, Fetch, Library, Made, Moved, Opened, Piece, Sink, Text};
use ygg_outside::{FileDevice, FileLibrary, OutSink};

/// What is asked for a path.
#[derive(Clone, Copy)]
enum Asked {
    /// Whether it answers so within so many bytes, and these bytes come.
    Answers(u64, Opened, &'static [u8]),
    /// Whether it fails at what comes past the limit that it was opened with.
    Grows,
    /// Whether the long file's bytes come in pieces of at most so many.
    Reads(usize),
    /// Whether an image can be made there.
    Makes,
    /// Whether it is no image.
    IsNoImage,
}

/// Whether a file fails that gets seven bytes after it was opened with room for five.
fn fails_grown<L: Library>(rt: &HostRuntime, library: &mut L, name: &Text) -> bool {
    let mut slice = [0u8; 8];
    library.open(name, 5) == Opened::Open
        && fs::write(rt, "growing", "seven..").is_ok()
        && library.next(&mut slice) == Piece::Got(5)
        && library.next(&mut slice) == Piece::Failed
}

/// How many bytes the long file has.
const LONG: usize = 70_000;

/// The byte at a place of it.
fn byte_at(place: usize) -> u8 {
    (place % 251) as u8
}

/// Writes it.
fn writes_long(rt: &HostRuntime) -> bool {
    let mut bytes = [0u8; LONG];
    for (place, byte) in bytes.iter_mut().enumerate() {
        *byte = byte_at(place);
    }
    fs::write(rt, "long", bytes.as_slice()).is_ok()
}

/// Whether these are its bytes from a place on.
fn are_there(bytes: &[u8], from: usize) -> bool {
    for (place, byte) in bytes.iter().enumerate() {
        if *byte != byte_at(from.saturating_add(place)) {
            return false;
        }
    }
    true
}

/// Opens the long file and reads it to its end, through a slice of so many bytes, and says whether its bytes come. The file is fetched too before each piece.
fn read_through<L: Library>(library: &mut L, name: &Text, slice: &mut [u8]) -> bool
    requires { 0 < length slice.old }
{
    if library.open(name, LONG as u64) != Opened::Open {
        return false;
    }
    let mut come: usize = 0;
    for _ in 0..1_000_000 {
        if !matches!(library.fetch(name, LONG as u64), Fetch::Found(_)) {
            return false;
        }
        match library.next(slice) {
            Piece::Got(count) => {
                if !are_there(&slice[..count], come) {
                    return false;
                }
                come = come.saturating_add(count);
            }
            Piece::End => return come == LONG,
            Piece::Failed => return false,
        }
    }
    false
}

/// Whether the long file is read through a slice of so many bytes.
fn is_long_read<L: Library>(library: &mut L, name: &Text, count: usize) -> bool {
    let mut slice = [0u8; 65_536];
    0 < count && count <= slice.len() && read_through(library, name, &mut slice[..count])
}

/// Whether an image of two blocks of four bytes that isn't there can be made, and its second block written and read.
fn is_made<D: Device>(device: &mut D, name: &Text) -> bool {
    device.attach(name, 4) == Attach::Absent
        && device.create(name, 4, 2) == Made::Done
        && put(device, name, [1, 2, 3, 4]) == Moved::Done
        && is_got(device, name, [1, 2, 3, 4])
}

/// Whether a library opens a name so, and fetches it so, with these bytes where it has it.
fn is_answered<L: Library>(
    library: &mut L,
    name: &Text,
    limit: u64,
    wanted: Opened,
    bytes: &[u8],
) -> bool {
    let opened = library.open(name, limit) == wanted;
    let fetched = library.fetch(name, limit);
    let answered = match &fetched {
        Fetch::Found(text) => wanted == Opened::Open && text.as_slice() == bytes,
        Fetch::Absent => wanted == Opened::Absent,
        Fetch::TooLarge => wanted == Opened::TooLarge,
        Fetch::Failed => wanted == Opened::Failed,
        Fetch::Memory => false,
    };
    drop(fetched);
    opened & answered
}

/// Whether a library answers what it must.
fn answers<L: Library>(rt: &HostRuntime, library: &mut L, name: &Text, asked: Asked) -> bool {
    match asked {
        Asked::Answers(limit, wanted, bytes) => is_answered(library, name, limit, wanted, bytes),
        Asked::Grows => fails_grown(rt, library, name),
        Asked::Reads(count) => is_long_read(library, name, count),
        _ => false,
    }
}

/// Whether a device answers what it must.
fn serves<D: Device>(device: &mut D, name: &Text, asked: Asked) -> bool {
    match asked {
        Asked::Makes => is_made(device, name),
        Asked::IsNoImage => device.attach(name, 4) == Attach::Failed,
        _ => false,
    }
}

/// Whether the files of the system do for a name, as a library or as a device.
fn is_so(rt: &HostRuntime, name: &Text, asked: Asked) -> bool {
    let mut library = FileLibrary::new(rt);
    let answered = answers(rt, &mut library, name, asked);
    drop(library);
    let mut device = FileDevice::new(rt);
    let served = serves(&mut device, name, asked);
    drop(device);
    answered | served
}

/// Whether they do for a path.
fn is_so_at(rt: &HostRuntime, path: &[u8], asked: Asked) -> bool {
    match Text::from_slice(rt.alloc(), path) {
        Ok(name) => is_so(rt, &name, asked),
        Err(_) => false,
    }
}

/// Whether they do for each path.
fn are_so(rt: &HostRuntime) -> bool {
    let image = &[0, 0, 0, 0, 1, 2, 3, 4];
    let mut are = is_so_at(rt, b"image", Asked::Makes);
    are &= is_so_at(rt, b".", Asked::IsNoImage);
    are &= is_so_at(rt, b"stored", Asked::Answers(4, Opened::Open, b"four"));
    are &= is_so_at(rt, b"image", Asked::Answers(8, Opened::Open, image));
    are &= is_so_at(rt, b"stored", Asked::Answers(3, Opened::TooLarge, &[]));
    are &= is_so_at(rt, b"absent", Asked::Answers(4, Opened::Absent, &[]));
    are &= is_so_at(rt, b".", Asked::Answers(4, Opened::Failed, &[]));
    are &= is_so_at(rt, b"growing", Asked::Grows);
    are &= is_so_at(rt, b"long", Asked::Reads(1_000));
    are & is_so_at(rt, b"long", Asked::Reads(65_536))
}

/// Removes the files of the test, also those that an earlier run left when it was cut off.
fn remove(rt: &HostRuntime) {
    for path in &["stored", "growing", "long", "image"] {
        let _ = fs::remove_file(rt, path);
    }
}

/// Whether all is so, with files that are written before and removed then.
fn holds(rt: &HostRuntime) -> bool {
    remove(rt);
    let holds = fs::write(rt, "stored", "four").is_ok()
        && fs::write(rt, "growing", "four").is_ok()
        && writes_long(rt)
        && are_so(rt);
    remove(rt);
    holds
}

#[test]
fn files_and_images_are_read_and_written(rt: HostRuntime) {
    assert!(rt; holds(&rt));
}

/// Takes one byte at a call, up to so many bytes, and then nothing.
#[derive(Drop)]
struct Slow {
    taken: Vec<u8>,
    room: usize,
}

impl Write for Slow {
    fn write(&mut self, bytes: &[u8]) -> io::Result<usize> {
        let count = bytes.len().min(self.room).min(1);
        self.taken.extend_from_slice(&bytes[..count])?;
        self.room -= count;
        Ok(count)
    }

    fn flush(&mut self) -> io::Result<()> {
        Ok(())
    }
}

/// How much room there is, and what comes of putting four bytes and then three.
const ROOMS: [(usize, Moved, Moved); 4] = [
    (7, Moved::Done, Moved::Done),
    (6, Moved::Done, Moved::Failed),
    (4, Moved::Done, Moved::Failed),
    (0, Moved::Failed, Moved::Failed),
];

/// Whether this comes of it, and the room is filled.
fn fills(alloc: Global, room: usize, first: Moved, second: Moved) -> bool {
    let taken = Vec::new(alloc);
    let mut sink = OutSink::new(Slow { taken, room });
    let puts = sink.put(b"one ") == first && sink.put(b"two") == second;
    let taken = sink.out().taken.as_slice();
    puts && taken.len() == room && b"one two".as_slice().starts_with(taken)
}

/// Whether it does of each.
fn all_fill(alloc: Global) -> bool {
    for (room, first, second) in &ROOMS {
        if !fills(alloc, *room, *first, *second) {
            return false;
        }
    }
    true
}

#[test]
fn short_writes_go_on_and_a_write_of_nothing_fails(rt: HostRuntime) {
    assert!(rt; all_fill(rt.alloc()));
}
