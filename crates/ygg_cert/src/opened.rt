//! A certificate in an open file.

ghost use Rattle.std.specs.Prelude.{◌≡◌, ◌<◌, ◌≤◌, length, vec_len, IfOk, IsErr};
ghost use Rattle.ygg_base.specs.Outside.{IsOpen, Rose};
ghost use Rattle.ygg_cert.specs.Opened.{IsLess, JudgesOn, JudgesOpen, ReadsOn};

use crate::{CertEnd, Fed, Goals, Reading};
use std::alloc::Global;
use thiserror::Error;
use ygg_base::{Library, NoMemory, Piece};

/// The library failed, and its count of faults has risen.
#[derive(Clone, Copy, Debug, PartialEq, Eq, Drop, Error)]
#[error("the library failed")]
pub struct LibraryFailed;

/// What comes of reading a piece.
#[derive(Clone, Copy)]
enum Came {
    /// More may follow.
    More,
    /// What is said of the whole file is known.
    Over,
    /// The library failed.
    Failed,
}

/// How many bytes are asked for at once.
const PIECE: usize = 65_536;

/// Reads the next piece of the open file.
fn read_piece<G: Goals, L: Library>(
    alloc: Global,
    goals: &G,
    library: &mut L,
    buffer: &mut [u8],
    reading: &mut Reading,
) -> Came
    requires is_open { IsOpen (L.reading library.old) }
    requires place { 0 < length buffer.old }
    ensures told { ReadsOn (G.wanted goals.now) (L.reading library.old) (L.reading library.new) reading.old reading.new result }
    ensures less { result ≡ Came.More → IsLess (L.reading library.old) (L.reading library.new) }
    ensures cause { result ≡ Came.Failed → Rose (L.faults library.old) (L.faults library.new) }
    ensures kept { L.files library.new ≡ L.files library.old }
    ensures later { L.faults library.old ≤ L.faults library.new }
{
    match library.next(buffer) {
        Piece::Got(count) => match reading.feed(alloc, goals, &buffer[..count]) {
            Fed::More => Came::More,
            Fed::Over => Came::Over,
            Fed::Memory => Came::Over,
        },
        Piece::End => Came::Over,
        Piece::Failed => Came::Failed,
    }
}

/// Reads the open file until what is said of it is known.
fn read_all<G: Goals, L: Library>(
    alloc: Global,
    goals: &G,
    library: &mut L,
    buffer: &mut [u8],
    mut reading: Reading,
) -> Result<CertEnd, LibraryFailed>
    requires is_open { IsOpen (L.reading library.old) }
    requires place { 0 < length buffer.old }
    ensures judged { JudgesOn (G.wanted goals.now) (L.reading library.old) reading result }
    ensures cause { IsErr result → Rose (L.faults library.old) (L.faults library.new) }
    ensures kept { L.files library.new ≡ L.files library.old }
    ensures later { L.faults library.old ≤ L.faults library.new }
{
    loop {
        match read_piece(alloc, goals, library, buffer, &mut reading) {
            Came::More => {}
            Came::Over => return Ok(reading.finish()),
            Came::Failed => return Err(LibraryFailed),
        }
    }
}

/// Place for so many bytes. Its only error is out of memory.
fn place(alloc: Global, count: usize) -> Result<Vec<u8>, NoMemory>
    requires { 0 < count }
    ensures { IfOk result (λ place. 0 < vec_len place) }
{
    Ok(vec![in alloc; 0u8; count]?)
}

/// What is said of the open file, from its position on, as a certificate for goals, each made when its log comes. It is read in pieces of at most 65,536 bytes,
/// and no further than to the first line at fault. Where the library fails, that is the answer.
pub fn check_open<G: Goals, L: Library>(
    alloc: Global,
    goals: &G,
    library: &mut L,
) -> Result<CertEnd, LibraryFailed>
    requires { IsOpen (L.reading library.old) }
    ensures judged { IfOk result (JudgesOpen (G.wanted goals.now) (L.reading library.old)) }
    ensures cause { IsErr result → Rose (L.faults library.old) (L.faults library.new) }
    ensures kept { L.files library.new ≡ L.files library.old }
    ensures later { L.faults library.old ≤ L.faults library.new }
{
    let Ok(mut buffer) = place(alloc, PIECE) else {
        return Ok(CertEnd::Memory);
    };
    let Ok(reading) = Reading::new(alloc) else {
        return Ok(CertEnd::Memory);
    };
    read_all(alloc, goals, library, buffer.as_mut_slice(), reading)
}
