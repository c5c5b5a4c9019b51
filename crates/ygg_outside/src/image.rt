//! Images of the system: files that are read and written in blocks.

ghost use Rattle.std.specs.Prelude.{◌≡◌, ℕ, ◌*◌, ◌<◌, ◌≤◌, List, Option, length};
ghost use Rattle.ygg_base.specs.Outside.{Rose};
ghost use Rattle.ygg_base.specs.declared.outside.Moved.TheVariants as moved;
ghost use Rattle.ygg_outside.specs.Images.{attachment_at};

use crate::failure::{Call, Cause, Failure};
use crate::opening::{Found, go_to, make_image, open_image, read_whole, write_whole};
use std::fs::File;
use ygg_base::{Attach, Device, Made, Moved, Text, blocks_in};

/// The files of the system, by their paths, as images.
#[derive(Drop)]
pub struct FileDevice<'a> {
    rt: &'a HostRuntime,
    faults: u64,
    attached: Option<Attached>,
    failed: Option<Failure>,
}

/// A file that is attached, by its name, as so many blocks of so many bytes.
#[derive(Drop)]
struct Attached {
    file: File,
    name: Text,
    size: u32,
    count: u32,
}

impl<'a> FileDevice<'a> {
    /// A device over the system's files.
    pub fn new(rt: &'a HostRuntime) -> FileDevice<'a> {
        FileDevice {
            rt,
            faults: 0,
            attached: None,
            failed: None,
        }
    }

    /// The call that failed last, if one did.
    pub fn failed(&self) -> Option<Failure> {
        self.failed
    }

    /// Counts a fault, and keeps what failed.
    fn fault(&mut self, failure: Failure)
        ensures rose { Rose self.old.faults self.new.faults }
        ensures later { self.old.faults ≤ self.new.faults }
        ensures still { self.new.attached ≡ self.old.attached }
    {
        self.faults = self.faults.saturating_add(1);
        self.failed = Some(failure);
    }

    /// What a call on the attached image answers by how it went. A failure is counted and kept.
    fn moved(&mut self, went: Result<(), Failure>) -> Moved
        ensures cause { result ≡ moved.Failed → Rose self.old.faults self.new.faults }
        ensures later { self.old.faults ≤ self.new.faults }
        ensures still { self.new.attached ≡ self.old.attached }
    {
        match went {
            Ok(()) => Moved::Done,
            Err(failure) => {
                self.fault(failure);
                Moved::Failed
            }
        }
    }
}

/// The failure of a call without an attached image.
const UNATTACHED: Failure = Failure {
    call: Call::Open,
    cause: Cause::NoFile,
};

/// Where a block of the file begins.
fn start_of(attached: &Attached, block: u32) -> u64 {
    block as u64 * attached.size as u64
}

/// Reads a block of the file.
fn read_block(attached: &mut Attached, block: u32, into: &mut [u8]) -> Result<(), Failure>
    ensures { attachment_at attached.new ≡ attachment_at attached.old }
{
    let start = start_of(attached, block);
    go_to(&mut attached.file, start, Call::Read)?;
    read_whole(&mut attached.file, into)
}

/// Writes a block of the file.
fn write_block(attached: &mut Attached, block: u32, from: &[u8]) -> Result<(), Failure>
    ensures { attachment_at attached.new ≡ attachment_at attached.old }
{
    let start = start_of(attached, block);
    go_to(&mut attached.file, start, Call::Write)?;
    write_whole(&mut attached.file, from)
}

/// Makes all that was written to the file stay.
fn sync(attached: &Attached) -> Result<(), Failure> {
    match attached.file.sync_all() {
        Ok(()) => Ok(()),
        Err(error) => Err(Failure::system(Call::Flush, error)),
    }
}

impl<'a> Device for FileDevice<'a> {
    ghost use Rattle.std.specs.Prelude.{None, option_map};
    ghost use Rattle.ygg_outside.specs.Images.{attachment_at};

    ghost images = { λ _. None };

    ghost attached = { λ s. option_map attachment_at s.attached };

    ghost faults = { λ s. s.faults };

    fn attach(&mut self, name: &Text, size: u32) -> Attach {
        self.attached = None;
        let Ok(copy) = name.copy(self.rt.alloc()) else {
            return Attach::Memory;
        };
        match open_image(self.rt, name.as_slice()) {
            Found::File(file, bytes) => {
                let count = blocks_in(size, bytes);
                self.attached = Some(Attached {
                    file,
                    name: copy,
                    size,
                    count,
                });
                Attach::Attached { bytes }
            }
            Found::Absent => Attach::Absent,
            Found::Failed(failure) => {
                self.fault(failure);
                Attach::Failed
            }
        }
    }

    fn create(&mut self, name: &Text, size: u32, count: u32) -> Made {
        self.attached = None;
        let Ok(copy) = name.copy(self.rt.alloc()) else {
            return Made::Memory;
        };
        match make_image(self.rt, name.as_slice(), count as u64 * size as u64) {
            Ok(file) => {
                self.attached = Some(Attached {
                    file,
                    name: copy,
                    size,
                    count,
                });
                Made::Done
            }
            Err(failure) => {
                self.fault(failure);
                Made::Failed
            }
        }
    }

    fn read(&mut self, block: u32, into: &mut [u8]) -> Moved {
        let read = match &mut self.attached {
            Some(attached) => read_block(attached, block, into),
            None => Err(UNATTACHED),
        };
        self.moved(read)
    }

    fn write(&mut self, block: u32, from: &[u8]) -> Moved {
        let written = match &mut self.attached {
            Some(attached) => write_block(attached, block, from),
            None => Err(UNATTACHED),
        };
        self.moved(written)
    }

    fn flush(&mut self) -> Moved {
        let synced = match &self.attached {
            Some(attached) => sync(attached),
            None => Err(UNATTACHED),
        };
        self.moved(synced)
    }
}
