//! Standard output.

ghost use Rattle.std.specs.Prelude.{◌≡◌, ℕ, ◌≤◌, List, Option};

use crate::failure::Cause;
use std::io::Write;
use ygg_base::{Moved, Sink};

/// A writer of the system, as standard output.
#[derive(Drop)]
pub struct OutSink<W> {
    out: W,
    faults: u64,
    failed: Option<Cause>,
}

impl<W: Write> OutSink<W> {
    /// A sink over the writer.
    pub fn new(out: W) -> OutSink<W> {
        OutSink {
            out,
            faults: 0,
            failed: None,
        }
    }

    /// The writer.
    pub fn out(&self) -> &W
        ensures { result.now ≡ self.now.out }
    {
        &self.out
    }

    /// Why a call failed last, if one did.
    pub fn failed(&self) -> Option<Cause> {
        self.failed
    }
}

/// Writes all the bytes. A write that takes nothing is an error.
pub(crate) fn write_all<W: Write>(out: &mut W, bytes: &[u8]) -> Result<(), Cause> {
    let mut done = 0usize;
    while done < bytes.len() {
        match out.write(&bytes[done..]) {
            Ok(0) => return Err(Cause::Short),
            Ok(count) => done += count,
            Err(error) => return Err(Cause::System(error)),
        }
    }
    match out.flush() {
        Ok(()) => Ok(()),
        Err(error) => Err(Cause::System(error)),
    }
}

impl<W: Write> Sink for OutSink<W> {
    ghost use Rattle.std.specs.Prelude.{None};

    ghost taken = { λ _. None };

    ghost faults = { λ s. s.faults };

    fn put(&mut self, bytes: &[u8]) -> Moved {
        match write_all(&mut self.out, bytes) {
            Ok(()) => Moved::Done,
            Err(cause) => {
                self.faults = self.faults.saturating_add(1);
                self.failed = Some(cause);
                Moved::Failed
            }
        }
    }
}
