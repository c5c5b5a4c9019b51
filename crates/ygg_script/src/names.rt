//! The words of a script's lines.

ghost use Rattle.std.specs.Prelude.{◌≡◌, None, Some, MatchOption};
ghost use Rattle.std.specs.List.{list_all};
ghost use Rattle.std.specs.Option.{option_copied};
ghost use Rattle.ygg_base.specs.Lexing.{is_name_byte};
ghost use Rattle.ygg_script.specs.Names.{is_name, are_words, call_in, tick_in};
ghost use Rattle.ygg_script.specs.Left.{pieces_left};

use ygg_lex::{is_name_byte, keyword_of};
use ygg_sched::cut;

/// Whether all bytes may stand in a name after its first.
fn are_name_bytes(bytes: &[u8]) -> bool
    ensures { result ≡ list_all is_name_byte bytes.now }
{
    bytes.iter().all(|byte| is_name_byte(*byte))
}

/// Whether it is a name of the layer language: a lower-case letter, then lower-case letters, digits and `_`, and no keyword.
fn is_name(bytes: &[u8]) -> bool
    ensures { result ≡ is_name bytes.now }
{
    match bytes.split_first() {
        Some((first, others)) => {
            first.is_ascii_lowercase() && are_name_bytes(others) && keyword_of(bytes).is_none()
        }
        None => false,
    }
}

/// Whether no word of what may be left of a line is empty.
fn are_words(words: Option<&[u8]>) -> bool
    ensures { result ≡ are_words (pieces_left 32 (option_copied words.entry)) }
{
    let mut left = words;
    while let Some(more) = left {
        let (word, others) = cut(more, b' ');
        if word.is_empty() {
            return false;
        }
        left = others;
    }
    true
}

/// The operation's name and what there is of values after `call `: words with one space between them.
pub fn call_in(bytes: &[u8]) -> Option<(&[u8], Option<&[u8]>)>
    ensures { MatchOption result (call_in bytes.now ≡ None) (λ words. call_in bytes.now ≡ Some (words.0.now, pieces_left 32 (option_copied words.1))) }
{
    let (name, values) = cut(bytes, b' ');
    if is_name(name) && are_words(values) {
        Some((name, values))
    } else {
        None
    }
}

/// The names of a layer and of its background step after `tick `, with a dot between them.
pub fn tick_in(bytes: &[u8]) -> Option<(&[u8], &[u8])>
    ensures { MatchOption result (tick_in bytes.now ≡ None) (λ names. tick_in bytes.now ≡ Some (names.0.now, names.1.now)) }
{
    let (layer, more) = cut(bytes, b'.');
    match more {
        Some(name) => {
            if is_name(layer) && is_name(name) {
                Some((layer, name))
            } else {
                None
            }
        }
        None => None,
    }
}
