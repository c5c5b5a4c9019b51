//! The files of the system.

ghost use Rattle.std.specs.Prelude.{◌≡◌, ℕ, ◌<◌, ◌≤◌, List, Option, Some, length};
ghost use Rattle.ygg_base.specs.Outside.{Rose, Gives};
ghost use Rattle.ygg_outside.specs.Contents.{IsContentsWithin, IsPieceWithin, reading_at};

use crate::failure::{Call, Cause, Failure};
use std::alloc::Global;
use std::fs::{self, File};
use std::io::{ErrorKind, Read};
use std::str;
use ygg_base::{Fetch, Library, Opened, Piece, Text};

/// The files of the system, by their paths.
#[derive(Drop)]
pub struct FileLibrary<'a> {
    rt: &'a HostRuntime,
    faults: u64,
    opened: Option<OpenFile>,
    asked: Option<Text>,
    failed: Option<Failure>,
}

/// A file that is being read, and how many bytes it may still give at most.
#[derive(Drop)]
struct OpenFile {
    file: File,
    room: u64,
}

impl<'a> FileLibrary<'a> {
    /// A library over the system's files.
    pub fn new(rt: &'a HostRuntime) -> FileLibrary<'a> {
        FileLibrary {
            rt,
            faults: 0,
            opened: None,
            asked: None,
            failed: None,
        }
    }

    /// The name that was asked for last, where there was memory for it.
    pub fn asked(&self) -> Option<&Text> {
        self.asked.as_ref()
    }

    /// The call that failed last, if one did.
    pub fn failed(&self) -> Option<Failure> {
        self.failed
    }
}

/// What comes of a path.
enum Found {
    File(File),
    Absent,
    TooLarge,
    Failed(Failure),
}

/// An open file, unless it is a folder, which is a failure, or a regular file of more than `limit` bytes.
fn within(file: File, limit: u64) -> Found {
    match file.metadata() {
        Ok(metadata) if metadata.is_dir() => Found::Failed(Failure {
            call: Call::Open,
            cause: Cause::NoFile,
        }),
        Ok(metadata) if metadata.is_file() && metadata.len() > limit => Found::TooLarge,
        Ok(_) => Found::File(file),
        Err(error) => Found::Failed(Failure::system(Call::Open, error)),
    }
}

/// Opens a file of at most `limit` bytes to be read. A path that leads to nothing is absent, and so is one that isn't UTF-8; one that can't be opened, as a
/// file without permission, is a failure.
fn open_within(rt: &HostRuntime, name: &[u8], limit: u64) -> Found {
    let Ok(path) = str::from_utf8(name) else {
        return Found::Absent;
    };
    match fs::open(rt, path) {
        Ok(file) => within(file, limit),
        Err(error) => {
            if error.kind() == ErrorKind::NotFound {
                Found::Absent
            } else {
                Found::Failed(Failure::system(Call::Open, error))
            }
        }
    }
}

/// What reading a file gave.
enum Contents {
    Text(Text),
    Absent,
    TooLarge,
    Failed(Failure),
    Memory,
}

/// The bytes that a read asks for at once.
const PIECE: usize = 4096;

/// The failure of a file that gives more than it may.
const ENDLESS: Failure = Failure {
    call: Call::Read,
    cause: Cause::Endless,
};

/// Reads all there is, where it is at most `limit` bytes.
fn read_all<R: Read>(alloc: Global, reader: &mut R, limit: u64) -> Contents
    ensures { IsContentsWithin limit result }
{
    let mut text = Text::new(alloc);
    let mut room = limit;
    let mut piece = [0u8; PIECE];
    for _ in 0..u64::MAX {
        let count = match reader.read(&mut piece) {
            Ok(count) => count,
            Err(error) => return Contents::Failed(Failure::system(Call::Read, error)),
        };
        if count == 0 {
            return Contents::Text(text);
        }
        if count as u64 > room {
            return Contents::TooLarge;
        }
        room -= count as u64;
        if text.extend_from_slice(&piece[..count]).is_err() {
            return Contents::Memory;
        }
    }
    Contents::Failed(ENDLESS)
}

/// Reads the next bytes of a file that may give so many still, straight into the front of the slice. Where it has more than these, that is a failure: it has
/// grown since it was opened, or its size couldn't be told.
fn read_piece<R: Read>(reader: &mut R, room: u64, into: &mut [u8]) -> (Piece, Option<Failure>)
    requires { 0 < length into.old }
    ensures { IsPieceWithin room result.0 into.new }
{
    let most = if into.len() as u64 <= room {
        into.len()
    } else {
        (room as usize).max(1)
    };
    match reader.read(&mut into[..most]) {
        Ok(0) => (Piece::End, None),
        Ok(count) if count as u64 <= room => (Piece::Got(count), None),
        Ok(_) => (Piece::Failed, Some(ENDLESS)),
        Err(error) => (Piece::Failed, Some(Failure::system(Call::Read, error))),
    }
}

/// The same for a file that is being read.
fn next_of(opened: &mut OpenFile, into: &mut [u8]) -> (Piece, Option<Failure>)
    requires { 0 < length into.old }
    ensures { Gives (Some (reading_at opened.old)) result.0 into.new (Some (reading_at opened.new)) }
{
    let next = read_piece(&mut opened.file, opened.room, into);
    if let Piece::Got(count) = next.0 {
        opened.room -= count as u64;
    }
    next
}

impl<'a> FileLibrary<'a> {
    /// Counts a fault, and keeps what failed.
    fn fault(&mut self, failure: Option<Failure>)
        ensures rose { Rose self.old.faults self.new.faults }
        ensures later { self.old.faults ≤ self.new.faults }
        ensures still { self.new.opened ≡ self.old.opened }
    {
        self.faults = self.faults.saturating_add(1);
        self.failed = failure;
    }
}

impl<'a> Library for FileLibrary<'a> {
    ghost use Rattle.std.specs.Prelude.{None, option_map};
    ghost use Rattle.ygg_outside.specs.Contents.{reading_at};

    ghost files = { λ _. None };

    ghost faults = { λ s. s.faults };

    ghost reading = { λ s. option_map reading_at s.opened };

    fn fetch(&mut self, name: &Text, limit: u64) -> Fetch {
        self.asked = name.copy(self.rt.alloc()).ok();
        let contents = match open_within(self.rt, name.as_slice(), limit) {
            Found::File(mut file) => read_all(self.rt.alloc(), &mut file, limit),
            Found::Absent => Contents::Absent,
            Found::TooLarge => Contents::TooLarge,
            Found::Failed(failure) => Contents::Failed(failure),
        };
        match contents {
            Contents::Text(text) => Fetch::Found(text),
            Contents::Absent => Fetch::Absent,
            Contents::TooLarge => Fetch::TooLarge,
            Contents::Failed(failure) => {
                self.fault(Some(failure));
                Fetch::Failed
            }
            Contents::Memory => Fetch::Memory,
        }
    }

    fn open(&mut self, name: &Text, limit: u64) -> Opened {
        self.opened = None;
        self.asked = name.copy(self.rt.alloc()).ok();
        match open_within(self.rt, name.as_slice(), limit) {
            Found::File(file) => {
                self.opened = Some(OpenFile { file, room: limit });
                Opened::Open
            }
            Found::Absent => Opened::Absent,
            Found::TooLarge => Opened::TooLarge,
            Found::Failed(failure) => {
                self.fault(Some(failure));
                Opened::Failed
            }
        }
    }

    fn next(&mut self, into: &mut [u8]) -> Piece {
        let (piece, failure) = match &mut self.opened {
            Some(opened) => next_of(opened, into),
            None => (Piece::Failed, None),
        };
        if matches!(piece, Piece::Failed) {
            self.fault(failure);
        }
        piece
    }
}
