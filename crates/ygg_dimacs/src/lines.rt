//! The lines of a text that count.

ghost use Rattle.std.specs.Prelude.{◌≡◌, ◌<◌, [], IfOk, MatchOption, MatchResult};
ghost use Rattle.ygg_dimacs.specs.Sizes.{left_size};
ghost use Rattle.std.specs.List.{list_all};
ghost use Rattle.ygg_base.specs.Lexing.{is_blank as blank};
ghost use Rattle.ygg_dimacs.specs.Lines.{begins, is_passed_over};
ghost use Rattle.ygg_dimacs.specs.Left.{left_lines, IsNextLine, IsNextContent, IsNoContent};

use crate::cutting::{cut_line, is_blank};
use crate::places::{Line, TextPlace, TextRest};

/// Whether the bytes begin with this one.
fn begins(bytes: &[u8], mark: u8) -> bool
    ensures { result ≡ begins mark bytes.now }
{
    match bytes.first() {
        Some(byte) => *byte == mark,
        None => false,
    }
}

/// Whether all bytes are blanks.
fn are_blank(bytes: &[u8]) -> bool
    ensures { result ≡ list_all blank bytes.now }
{
    bytes.iter().all(|byte| is_blank(*byte))
}

/// Whether the line is passed over: it has blanks alone, or begins with `c`.
fn is_passed_over(bytes: &[u8]) -> bool
    ensures { result ≡ is_passed_over bytes.now }
{
    begins(bytes, b'c') || are_blank(bytes)
}

/// The first line that is left, and what is left after it.
fn next_line(at: TextRest<'_>) -> Option<(Line<'_>, TextRest<'_>)>
    ensures next { MatchOption result (left_lines at.entry ≡ []) (λ x. IsNextLine at.entry x.0 x.1) }
    ensures smaller { MatchOption result (at.entry.bytes ≡ None) (λ x. left_size x.1.bytes < left_size at.entry.bytes) }
{
    let bytes = at.bytes?;
    let (first, more) = cut_line(bytes);
    let line = Line {
        bytes: first,
        number: at.line,
    };
    match more {
        Some(others) => Some((
            line,
            TextRest {
                bytes: Some(others),
                line: at.line + 1,
                column: 1,
            },
        )),
        None => Some((
            line,
            TextRest {
                bytes: None,
                line: at.line,
                column: first.len() as u32 + 1,
            },
        )),
    }
}

/// The first line that counts, and what is left after it; or the end of what is read, where no line that counts is left.
pub fn next_content(at: TextRest<'_>) -> Result<(Line<'_>, TextRest<'_>), TextPlace>
    ensures next { MatchResult result (λ x. IsNextContent at.entry x.0 x.1) (IsNoContent at.entry) }
    ensures smaller { IfOk result (λ x. left_size x.1.bytes < left_size at.entry.bytes) }
{
    let mut left = at;
    while let Some((line, after)) = next_line(left) {
        if begins(line.bytes, b'%') {
            return Err(TextPlace {
                line: line.number,
                column: 1,
            });
        }
        if is_passed_over(line.bytes) {
            left = after;
        } else {
            return Ok((line, after));
        }
    }
    Err(TextPlace {
        line: left.line,
        column: left.column,
    })
}
