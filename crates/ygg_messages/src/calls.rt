//! The disk calls that the line of a script made below which a stop stands that isn't reached.

use crate::refusal::refusal_in;
use crate::words::word_at;
use std::alloc::{AllocError, Global};
use std::str;
use ygg_base::Text;
use ygg_messages_text::parted;

/// So many calls are named at most.
const MOST: u64 = 16;

/// The calls between two lines that say how something ended: how many there are, and their names.
#[derive(Drop)]
struct Calls {
    count: u64,
    names: String,
}

impl Calls {
    /// No calls.
    fn none(alloc: Global) -> Result<Calls, AllocError> {
        Ok(Calls {
            count: 0,
            names: format!(in alloc; "")?,
        })
    }

    /// One more call.
    fn add(&mut self, name: &str) -> Result<(), AllocError> {
        if self.count < MOST {
            self.names
                .push_str(if self.count == 0 { ": " } else { ", " })?;
            self.names.push_str(name)?;
        } else if self.count == MOST {
            self.names.push_str(", ..")?;
        }
        self.count = self.count.saturating_add(1);
        Ok(())
    }
}

/// The line of a script at which `play` has refused a stop that isn't reached, by the last line that was put.
pub fn unreached(words: &[Text], last: &[u8]) -> Option<u32> {
    let refusal = refusal_in(last)?;
    if refusal.number == 44 && word_at(words, 0) == "play" {
        Some(refusal.line)
    } else {
        None
    }
}

/// A script up to a line.
pub fn script_before(alloc: Global, script: &[u8], line: u32) -> Result<Vec<u8>, AllocError> {
    let (before, _) = parted(script, line, 1);
    let mut out = Vec::from_slice(alloc, before)?;
    out.extend_from_slice(b"end\n")?;
    Ok(out)
}

/// The last calls of what `play` has printed.
fn last_calls(alloc: Global, printed: &str) -> Result<Calls, AllocError> {
    let mut last = Calls::none(alloc)?;
    let mut open = Calls::none(alloc)?;
    for line in printed.lines() {
        let name = line.split_whitespace().next().unwrap_or("");
        if name == "read" || name == "write" || name == "flush" {
            open.add(name)?;
        } else if name != "played" {
            last = open;
            open = Calls::none(alloc)?;
        }
    }
    Ok(last)
}

/// What is said of the last calls of what `play` has printed of a script up to a stop that isn't reached.
pub fn calls_message(alloc: Global, printed: &[u8]) -> Result<String, AllocError> {
    let Calls { count, names } = last_calls(alloc, str::from_utf8(printed).unwrap_or(""))?;
    let word = if count == 1 { "call" } else { "calls" };
    format!(in alloc; "help: what the line above does makes {count} disk {word}{names}\n")
}
