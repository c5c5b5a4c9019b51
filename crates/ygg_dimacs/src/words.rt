//! The words of a line.

ghost use Rattle.std.specs.Prelude.{◌≡◌, ◌<◌, ◌++◌, [], ◌∷◌, length, MatchOption, IfSome};
ghost use Rattle.ygg_dimacs.specs.Words.{word_of as word_if};
ghost use Rattle.ygg_dimacs.specs.Left.{left_words, word_of};

use crate::cutting::cut_word;
use crate::places::{Onward, TextWord};

/// The bytes before the first blank as a word, which may be empty, and what is left after it.
fn next_piece(at: Onward<'_>) -> (TextWord<'_>, Onward<'_>)
    ensures next { left_words at.entry ≡ word_if result.0.line result.0.column result.0.bytes.now ++ left_words result.1 }
    ensures smaller { 0 < length at.entry.bytes.now → length result.1.bytes.now < length at.entry.bytes.now }
{
    let (bytes, more) = cut_word(at.bytes);
    let word = TextWord {
        bytes,
        line: at.line,
        column: at.column,
    };
    match more {
        Some(others) => (
            word,
            Onward {
                bytes: others,
                line: at.line,
                column: at.column + bytes.len() as u32 + 1,
            },
        ),
        None => (
            word,
            Onward {
                bytes: &[],
                line: at.line,
                column: at.column,
            },
        ),
    }
}

/// The first word that is left, and what is left after it.
pub fn next_word(at: Onward<'_>) -> Option<(TextWord<'_>, Onward<'_>)>
    ensures next { MatchOption result (left_words at.entry ≡ []) (λ x. left_words at.entry ≡ word_of x.0 ∷ left_words x.1) }
    ensures smaller { IfSome result (λ x. length x.1.bytes.now < length at.entry.bytes.now) }
{
    let mut left = at;
    while !left.bytes.is_empty() {
        let (word, after) = next_piece(left);
        if !word.bytes.is_empty() {
            return Some((word, after));
        }
        left = after;
    }
    None
}
