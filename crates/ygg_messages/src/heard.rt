//! A sink that remembers what a person is told of later.

ghost use Rattle.std.specs.Prelude.{◌≡◌};

use std::alloc::Global;
use ygg_base::{Moved, Sink, Text};

/// As many bytes of what was put are remembered at most: names have no limit, and all else that matters is shorter.
const MOST: usize = 4096;

/// A sink over another one, which remembers the last text that was put, the last line of a spent budget, and how much there was.
#[derive(Drop)]
pub struct Heard<K> {
    sink: K,
    alloc: Global,
    last: Option<Text>,
    spent: Option<Text>,
    spends: u64,
    bytes: u64,
}

impl<K: Sink> Heard<K> {
    /// A sink over one.
    pub fn new(alloc: Global, sink: K) -> Heard<K> {
        Heard {
            sink,
            alloc,
            last: None,
            spent: None,
            spends: 0,
            bytes: 0,
        }
    }

    /// The sink below.
    pub fn sink(&self) -> &K
        ensures { result.now ≡ self.now.sink }
    {
        &self.sink
    }

    /// The text that was put last, where it isn't long.
    pub fn last(&self) -> &[u8] {
        bytes_in(&self.last)
    }

    /// The last line `spent ..`; no bytes where there was none.
    pub fn spent(&self) -> &[u8] {
        bytes_in(&self.spent)
    }

    /// How many lines `spent ..` there were.
    pub fn spends(&self) -> u64 {
        self.spends
    }

    /// How many bytes were put.
    pub fn bytes(&self) -> u64 {
        self.bytes
    }
}

/// The bytes of a text that there may be.
fn bytes_in(text: &Option<Text>) -> &[u8] {
    match text {
        Some(text) => text.as_slice(),
        None => &[],
    }
}

/// How many lines of a text begin with `spent`, and the last of them; a certificate has none.
fn spent_lines(bytes: &[u8]) -> (u64, &[u8]) {
    let mut found = (0u64, bytes.get(..0).unwrap_or(&[]));
    if bytes.starts_with(b"ygg-cert ") {
        return found;
    }
    for line in bytes.split(|byte| *byte == b'\n') {
        if line.starts_with(b"spent ") {
            found = (found.0.saturating_add(1), line);
        }
    }
    found
}

/// A copy of a text that isn't long, where there is memory for it.
fn copied(alloc: Global, bytes: &[u8]) -> Option<Text> {
    if bytes.len() > MOST {
        return None;
    }
    Text::from_slice(alloc, bytes).ok()
}

impl<K: Sink> Sink for Heard<K> {
    ghost taken = { λ s. K.taken s.sink };

    ghost faults = { λ s. K.faults s.sink };

    fn put(&mut self, bytes: &[u8]) -> Moved {
        self.last = copied(self.alloc, bytes);
        self.bytes = self.bytes.saturating_add(bytes.len() as u64);
        let (spends, spent) = spent_lines(bytes);
        if spends > 0 {
            self.spent = copied(self.alloc, spent);
            self.spends = self.spends.saturating_add(spends);
        }
        self.sink.put(bytes)
    }
}
