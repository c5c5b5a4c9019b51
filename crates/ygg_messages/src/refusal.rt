//! What is said of a refusal.

use crate::excerpt::excerpt;
use crate::hint::hint;
use crate::meanings::meaning;
use crate::usage::{asks_help, call_of, no_command};
use crate::words::word_at;
use std::alloc::{AllocError, Global};
use std::str;
use ygg_base::{Refusal, Text};
use ygg_messages_text::{line_of, nearest_name};

/// The refusal that a line `refused NUMBER LINE:COLUMN` tells, where it is one.
pub fn refusal_in(line: &[u8]) -> Option<Refusal> {
    let text = str::from_utf8(line).ok()?;
    let mut parts = text.strip_prefix("refused ")?.trim_end().split([' ', ':']);
    let number = parts.next()?.parse::<u8>().ok()?;
    let line = parts.next()?.parse::<u32>().ok()?;
    let column = parts.next()?.parse::<u32>().ok()?;
    Some(Refusal {
        number,
        line,
        column,
    })
}

/// The place among the words of the name of the file in which something is refused, by its number and the command.
pub fn file_place(words: &[Text], refusal: Refusal) -> usize {
    match refusal.number {
        21..=24 | 31..=34 => 2,
        41..=44 if word_at(words, 0) == "run" => 4,
        41..=44 => 2,
        _ => 1,
    }
}

/// What is said where a number is wanted.
fn no_number(alloc: Global, words: &[Text], word: &str) -> Result<String, AllocError> {
    let command = word_at(words, 0);
    if command == "demo" {
        return format!(in alloc;
            "ygg: demo takes a number of operations from 1 to 64; \"{word}\" is none\n"
        );
    }
    let place = if command == "decide" {
        "third"
    } else {
        "second"
    };
    format!(in alloc;
        "ygg: the {place} word is a budget, a number from 1 to 10000000; \"{word}\" is none\n"
    )
}

/// What more is said of a word that is refused, at its place among a command's words.
fn word_hint(command: &str, number: u8, place: u32) -> &'static str {
    match number {
        11 =>
            "a layer file, a schedule and a script have at most 1048576 bytes, a certificate and clauses 67108864",
        51 => "ygg format FILE IMAGE formats it",
        52 => "it was formatted for another layer file, or cut off",
        53 => "something else than ygg changed it, or it is damaged",
        73 if command == "run" && place == 3 => "ygg format FILE IMAGE makes one",
        74 => "ygg verify FILE 1 lists the names",
        _ => "",
    }
}

/// What is said of a word by the text of the file that it is sought in, where that could be read again.
fn sought(
    alloc: Global,
    number: u8,
    word: &str,
    text: Option<&[u8]>,
) -> Result<String, AllocError> {
    match text {
        Some(text) if number == 74 => nearest_name(alloc, text, word),
        _ => format!(in alloc; ""),
    }
}

/// What is said where a word is refused, at its place.
fn word_message(
    alloc: Global,
    words: &[Text],
    refusal: Refusal,
    text: Option<&[u8]>,
) -> Result<String, AllocError> {
    let command = word_at(words, 0);
    let word = word_at(words, refusal.column as usize);
    if refusal.number == 71 {
        return no_command(alloc, command);
    }
    if asks_help(word) {
        let call = call_of(command);
        return format!(in alloc; "usage: {call}\nygg --help explains it\n");
    }
    if refusal.number == 72 {
        return no_number(alloc, words, word);
    }
    let meaning = meaning(refusal.number);
    let hint = word_hint(command, refusal.number, refusal.column);
    let colon = if hint.is_empty() { "" } else { "; " };
    let near = sought(alloc, refusal.number, word, text)?;
    format!(in alloc; "ygg: \"{word}\": {meaning}{colon}{near}{hint}\n")
}

/// What is said of a refusal. The text is of the file in which something is refused or sought, where it could be read again.
pub fn refusal_message(
    alloc: Global,
    words: &[Text],
    refusal: Refusal,
    text: Option<&[u8]>,
) -> Result<String, AllocError> {
    if refusal.line == 0 {
        return word_message(alloc, words, refusal, text);
    }
    let name = word_at(words, file_place(words, refusal));
    let Refusal {
        number,
        line,
        column,
    } = refusal;
    let meaning = meaning(number);
    let mut out = format!(in alloc; "{name}:{line}:{column}: {meaning} [{number}]\n")?;
    if let Some(text) = text {
        let shown = excerpt(alloc, line_of(text, line), line, column)?;
        out.push_str(shown.as_str())?;
        let hint = hint(alloc, text, refusal)?;
        if !hint.is_empty() {
            out.push_str("help: ")?;
            out.push_str(hint.as_str())?;
            out.push('\n')?;
        }
    }
    Ok(out)
}
