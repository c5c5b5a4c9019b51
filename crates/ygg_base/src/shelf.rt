ghost use Rattle.std.specs.Prelude.{◌≡◌, ℕ, ◌≤◌, ◌<◌, min, true, false, List, [], Option, Some, IfSome, length, take, drop, option_map};
ghost use Rattle.std.specs.Option.{option_copied};
ghost use Rattle.ygg_base.specs.Outside.{Rose, bytes_of, FitsFile, IsWithin, FitsOpened, Opens, IsOpen, Gives};
ghost use Rattle.ygg_base.specs.Shelves.{reading_at};

use crate::lists::{Files, Held, Numbers, Text};
use crate::outside::{Fetch, Library, Opened, Piece};
use std::alloc::Global;

/// A file that is being read: its bytes, and how many of them were given.
#[derive(Drop)]
struct Place {
    bytes: Text,
    given: usize,
}

/// A library in memory that tells its files, and some of whose calls fail.
#[derive(Drop)]
pub struct Shelf {
    alloc: Global,
    files: Files,
    fails: Numbers,
    calls: u64,
    faults: u64,
    opened: Option<Place>,
}

impl Shelf {
    /// The files, of which the first of a name counts, and the numbers of the calls that are to fail, counted
    /// from 1. It takes no memory.
    pub fn new(alloc: Global, files: Files, fails: Numbers) -> Shelf
        ensures told { ⟦<Shelf as Library>⟧.files result ≡ Some files }
        ensures quiet { ⟦<Shelf as Library>⟧.faults result ≡ 0 }
        ensures fails { result.fails ≡ fails }
    {
        Shelf {
            alloc,
            files,
            fails,
            calls: 0,
            faults: 0,
            opened: None,
        }
    }
}

/// The bytes of the first file of that name.
fn stored<'a>(files: &'a [Held], name: &[u8]) -> Option<&'a Text>
    ensures { option_copied result ≡ bytes_of files.now name.now }
{
    for file in files {
        if file.name.as_slice() == name {
            return Some(&file.bytes);
        }
    }
    None
}

/// A copy of the bytes, where there are at most `limit` of them.
fn within(alloc: Global, bytes: &Text, limit: u64) -> Fetch
    ensures within { IsWithin limit result }
    ensures fits { FitsFile (Some bytes.now) limit result }
    ensures quiet { result ≡ Fetch.Failed → ⊥ }
{
    if bytes.len() as u64 > limit {
        return Fetch::TooLarge;
    }
    match bytes.copy(alloc) {
        Ok(text) => Fetch::Found(text),
        Err(_) => Fetch::Memory,
    }
}

/// Copies the bytes from a place on into a slice, as many as there are and fit, and says how many these are.
fn copy_from(bytes: &[u8], given: usize, into: &mut [u8]) -> usize
    ensures count { result ≡ min (length (drop given bytes.now)) (length into.old) }
    ensures copied { take result into.new ≡ take result (drop given bytes.now) }
    ensures size { length into.new ≡ length into.old }
{
    let Some(rest) = bytes.get(given..) else {
        return 0;
    };
    let count = rest.len().min(into.len());
    into[..count].copy_from_slice(&rest[..count]);
    count
}

/// Gives the next bytes of a file that is being read: as many as there are and fit.
fn given(place: &mut Place, into: &mut [u8]) -> Piece
    requires { 0 < length into.old }
    ensures given { Gives (Some (reading_at place.old)) result into.new (Some (reading_at place.new)) }
    ensures never { result ≡ Piece.Failed → ⊥ }
{
    let count = copy_from(place.bytes.as_slice(), place.given, into);
    if count == 0 {
        return Piece::End;
    }
    place.given += count;
    Piece::Got(count)
}

impl Shelf {
    /// Counts a call, and says whether it is one that is to fail.
    fn fails_now(&mut self) -> bool
        ensures kept { self.new.files ≡ self.old.files }
        ensures opened { self.new.opened ≡ self.old.opened }
        ensures fails { self.new.fails ≡ self.old.fails }
        ensures later { self.old.faults ≤ self.new.faults }
        ensures cause { result ≡ true → Rose self.old.faults self.new.faults }
        ensures never { self.old.fails ≡ [] → result ≡ false }
        ensures quiet { self.old.fails ≡ [] → self.new.faults ≡ self.old.faults }
    {
        self.calls = self.calls.saturating_add(1);
        let fails = self.fails.as_slice().contains(&self.calls);
        if fails {
            self.faults = self.faults.saturating_add(1);
        }
        fails
    }
}

impl Library for Shelf {
    ghost use Rattle.std.specs.Prelude.{Some, option_map};
    ghost use Rattle.ygg_base.specs.Shelves.{reading_at};

    ghost files = { λ s. Some s.files };

    ghost faults = { λ s. s.faults };

    ghost reading = { λ s. option_map reading_at s.opened };

    /// The bytes of a file, as every library answers; without calls that are to fail it never fails.
    fn fetch(&mut self, name: &Text, limit: u64) -> Fetch
        ensures within { IsWithin limit result }
        ensures told { IfSome (Some self.old.files) (λ held. FitsFile (bytes_of held name.now) limit result) }
        ensures kept { Some self.new.files ≡ Some self.old.files }
        ensures later { self.old.faults ≤ self.new.faults }
        ensures cause { result ≡ Fetch.Failed → Rose self.old.faults self.new.faults }
        ensures fails { self.new.fails ≡ self.old.fails }
        ensures never { self.old.fails ≡ [] → result ≡ Fetch.Failed → ⊥ }
        ensures quiet { self.old.fails ≡ [] → self.new.faults ≡ self.old.faults }
        ensures still { option_map reading_at self.new.opened ≡ option_map reading_at self.old.opened }
    {
        if self.fails_now() {
            return Fetch::Failed;
        }
        match stored(self.files.as_slice(), name.as_slice()) {
            Some(bytes) => within(self.alloc, bytes, limit),
            None => Fetch::Absent,
        }
    }

    /// Opens a file, as every library does; without calls that are to fail it never fails.
    fn open(&mut self, name: &Text, limit: u64) -> Opened
        ensures opens { Opens limit result (option_map reading_at self.new.opened) }
        ensures told { IfSome (Some self.old.files) (λ held. FitsOpened (bytes_of held name.now) limit result (option_map reading_at self.new.opened)) }
        ensures kept { Some self.new.files ≡ Some self.old.files }
        ensures later { self.old.faults ≤ self.new.faults }
        ensures cause { result ≡ Opened.Failed → Rose self.old.faults self.new.faults }
        ensures fails { self.new.fails ≡ self.old.fails }
        ensures never { self.old.fails ≡ [] → result ≡ Opened.Failed → ⊥ }
        ensures quiet { self.old.fails ≡ [] → self.new.faults ≡ self.old.faults }
    {
        self.opened = None;
        match self.fetch(name, limit) {
            Fetch::Found(bytes) => {
                self.opened = Some(Place { bytes, given: 0 });
                Opened::Open
            }
            Fetch::Absent => Opened::Absent,
            Fetch::TooLarge => Opened::TooLarge,
            Fetch::Failed => Opened::Failed,
            Fetch::Memory => Opened::Memory,
        }
    }

    /// Gives the next bytes of the open file, as every library does: as many as there are and fit. Without calls that are to fail it never fails.
    fn next(&mut self, into: &mut [u8]) -> Piece
        requires is_open { IsOpen (option_map reading_at self.old.opened) }
        requires place { 0 < length into.old }
        ensures given { Gives (option_map reading_at self.old.opened) result into.new (option_map reading_at self.new.opened) }
        ensures kept { Some self.new.files ≡ Some self.old.files }
        ensures later { self.old.faults ≤ self.new.faults }
        ensures cause { result ≡ Piece.Failed → Rose self.old.faults self.new.faults }
        ensures fails { self.new.fails ≡ self.old.fails }
        ensures never { self.old.fails ≡ [] → result ≡ Piece.Failed → ⊥ }
        ensures quiet { self.old.fails ≡ [] → self.new.faults ≡ self.old.faults }
    {
        if self.fails_now() {
            return Piece::Failed;
        }
        match &mut self.opened {
            Some(place) => given(place, into),
            None => Piece::End,
        }
    }
}
