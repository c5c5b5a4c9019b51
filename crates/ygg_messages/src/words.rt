//! The words of a command.

use std::str;
use ygg_base::Text;

/// The word at a place, 0 being the command; no text where there is none.
pub fn word_at(words: &[Text], place: usize) -> &str {
    text_of(words.get(place))
}

/// A word that there may be; no text where there is none.
pub fn text_of(word: Option<&Text>) -> &str {
    match word {
        Some(word) => str::from_utf8(word.as_slice()).unwrap_or(""),
        None => "",
    }
}
