//! Files that are opened as images, and locked so that no other program uses them.

ghost use Rattle.std.specs.Prelude.{◌≤◌, length};

use crate::failure::{Call, Cause, Failure};
use crate::output::write_all;
use std::fs::{File, OpenOptions, TryLockError};
use std::io::{ErrorKind, Read, Seek, SeekFrom};
use std::str;

/// What comes of a path.
pub(crate) enum Found {
    File(File, u64),
    Absent,
    Failed(Failure),
}

/// What an image begins with.
const MARK: &[u8] = b"YGGIMG1\n";

/// As many bytes as the smallest first block of an image has: what there is in one stands in these.
const HEADER: usize = 16;

/// No image is longer: a disk has at most 4,096 words of 8 bytes, and the first block at most 64 of them.
const MOST_BYTES: u64 = 33_280;

/// As many zeros as are written at once.
const ZEROS: [u8; 4096] = [0; 4096];

/// A regular file that this program has locked for itself, with its number of bytes.
fn locked(file: File) -> Result<(File, u64), Failure> {
    let bytes = match file.metadata() {
        Ok(metadata) if metadata.is_file() => metadata.len(),
        Ok(_) => {
            return Err(Failure {
                call: Call::Open,
                cause: Cause::NoFile,
            });
        }
        Err(error) => return Err(Failure::system(Call::Open, error)),
    };
    match file.try_lock() {
        Ok(()) => Ok((file, bytes)),
        Err(TryLockError::WouldBlock) => Err(Failure {
            call: Call::Lock,
            cause: Cause::InUse,
        }),
        Err(TryLockError::Error(error)) => Err(Failure::system(Call::Lock, error)),
    }
}

/// Opens a file to be read and written, and says how many bytes it has. A path that leads to nothing is absent, and so is one that isn't UTF-8. A failure is
/// one that can't be opened, as a file without permission, one that is no regular file, as a folder, and one that another program has locked.
pub(crate) fn open_image(rt: &HostRuntime, name: &[u8]) -> Found {
    let Ok(path) = str::from_utf8(name) else {
        return Found::Absent;
    };
    match OpenOptions::new().read(true).write(true).open(rt, path) {
        Ok(file) => match locked(file) {
            Ok((file, bytes)) => Found::File(file, bytes),
            Err(failure) => Found::Failed(failure),
        },
        Err(error) => {
            if error.kind() == ErrorKind::NotFound {
                Found::Absent
            } else {
                Found::Failed(Failure::system(Call::Open, error))
            }
        }
    }
}

/// Makes a file where nothing stands under the path. A link that leads to nothing isn't followed.
fn new_file(rt: &HostRuntime, path: &str) -> Result<File, Failure> {
    match File::create_new(rt, path) {
        Ok(file) => Ok(file),
        Err(error) => {
            if error.kind() == ErrorKind::AlreadyExists {
                return Err(Failure {
                    call: Call::Create,
                    cause: Cause::LooseLink,
                });
            }
            Err(Failure::system(Call::Create, error))
        }
    }
}

/// The file at the path, or a new one where nothing stands there, locked, with its number of bytes.
fn found_or_new(rt: &HostRuntime, name: &[u8]) -> Result<(File, u64), Failure> {
    match open_image(rt, name) {
        Found::File(file, bytes) => Ok((file, bytes)),
        Found::Failed(failure) => Err(failure),
        Found::Absent => match str::from_utf8(name) {
            Ok(path) => locked(new_file(rt, path)?),
            Err(_) => Err(Failure {
                call: Call::Create,
                cause: Cause::NoFile,
            }),
        },
    }
}

/// Fills the slice. A read that gives nothing is an error.
pub(crate) fn read_whole<R: Read>(reader: &mut R, into: &mut [u8]) -> Result<(), Failure> {
    let mut done = 0usize;
    while done < into.len() {
        match reader.read(&mut into[done..]) {
            Ok(0) => {
                return Err(Failure {
                    call: Call::Read,
                    cause: Cause::Short,
                });
            }
            Ok(count) => done += count,
            Err(error) => return Err(Failure::system(Call::Read, error)),
        }
    }
    Ok(())
}

/// Goes to a place of the file, before the call that is meant.
pub(crate) fn go_to(file: &mut File, start: u64, call: Call) -> Result<(), Failure> {
    match file.seek(SeekFrom::Start(start)) {
        Ok(_) => Ok(()),
        Err(error) => Err(Failure::system(call, error)),
    }
}

/// Writes all the bytes where the file stands.
pub(crate) fn write_whole(file: &mut File, from: &[u8]) -> Result<(), Failure> {
    match write_all(file, from) {
        Ok(()) => Ok(()),
        Err(cause) => Err(Failure {
            call: Call::Write,
            cause,
        }),
    }
}

/// Whether a file that begins so and has so many bytes may be overwritten by an image: it is one, or what is left of one that wasn't finished.
fn may_be_lost(head: &[u8], bytes: u64) -> bool {
    if head.starts_with(MARK) {
        return true;
    }
    bytes <= MOST_BYTES && head.iter().all(|byte| *byte == 0)
}

/// The same of a file of so many bytes.
fn is_lost(file: &mut File, bytes: u64) -> Result<bool, Failure> {
    let mut head = [0u8; HEADER];
    let most = bytes.min(HEADER as u64) as usize;
    go_to(file, 0, Call::Read)?;
    read_whole(file, &mut head[..most])?;
    Ok(may_be_lost(&head[..most], bytes))
}

/// Writes so many zeros from the beginning of an empty file, so that the system has room for all that is written there later.
fn write_zeros(file: &mut File, bytes: u64) -> Result<(), Failure> {
    go_to(file, 0, Call::Write)?;
    let piece = ZEROS.len() as u64;
    for _ in 0..bytes / piece {
        write_whole(file, &ZEROS)?;
    }
    write_whole(file, &ZEROS[..(bytes % piece) as usize])
}

/// Makes a file of so many bytes, all zeros, in the place of the one at the path. What stands there and is no image is left as it is, and that is a failure.
pub(crate) fn make_image(rt: &HostRuntime, name: &[u8], bytes: u64) -> Result<File, Failure> {
    let (mut file, before) = found_or_new(rt, name)?;
    if !is_lost(&mut file, before)? {
        return Err(Failure {
            call: Call::Create,
            cause: Cause::NoImage,
        });
    }
    if let Err(error) = file.set_len(0) {
        return Err(Failure::system(Call::Write, error));
    }
    write_zeros(&mut file, bytes)?;
    Ok(file)
}
