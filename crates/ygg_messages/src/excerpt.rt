//! A line of a file with a mark below it.

use std::alloc::{AllocError, Global};
use ygg_messages_text::word_of;

/// So many bytes of a line are shown at most.
const WIDTH: usize = 120;

/// So many bytes of a line that is cut stand before the mark.
const BEFORE: usize = 80;

/// How many bytes of a line are left out at its beginning, where the mark is to stand below the byte at this place.
fn left_out(place: usize) -> usize {
    if place < WIDTH {
        0
    } else {
        place.saturating_sub(BEFORE)
    }
}

/// Adds bytes as they can be shown on any terminal: a blank for a tab, and `?` for all that isn't plain ASCII.
fn push_plain(out: &mut String, bytes: &[u8]) -> Result<(), AllocError> {
    for byte in bytes {
        let shown = match byte {
            b'\t' => ' ',
            b' '..=b'~' => char::from(*byte),
            _ => '?',
        };
        out.push(shown)?;
    }
    Ok(())
}

/// A line of a file by its number, and below it a mark from a column on, counted from 1: as long as the word that begins there. A long line is cut.
pub fn excerpt(alloc: Global, line: &[u8], number: u32, column: u32) -> Result<String, AllocError> {
    let place = column.saturating_sub(1) as usize;
    let start = left_out(place);
    let rest = line.get(start..).unwrap_or(&[]);
    let mut out = format!(in alloc; "{number:>6} | ")?;
    push_plain(&mut out, rest.get(..WIDTH).unwrap_or(rest))?;
    out.push_str("\n       | ")?;
    for _ in 0..place.saturating_sub(start) {
        out.push(' ')?;
    }
    let marked = word_of(line.get(place..).unwrap_or(&[]));
    for _ in 0..marked.len().max(1) {
        out.push('^')?;
    }
    out.push('\n')?;
    Ok(out)
}
