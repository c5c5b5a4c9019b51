//! What may be meant where a layer file is refused, by what stands round the place: mostly habits from other languages.

use std::alloc::{AllocError, Global};
use std::str;
use ygg_messages_text::{
    goes_on_with, is_of_word, last_code, line_before, nearest_declared, wants_semicolon, word_of,
};

/// What may help where a byte isn't ASCII.
pub fn not_ascii(at: &[u8]) -> &'static str {
    if at.starts_with(b"\xEF\xBB\xBF") {
        return "this is a byte order mark: save the file without one";
    }
    if at.starts_with(b"\xFF\xFE") || at.starts_with(b"\xFE\xFF") {
        return "the file is UTF-16: save it as plain ASCII";
    }
    "an accent, a dash or a quotation mark from a page: comments too are plain ASCII"
}

/// What may help where no token begins.
pub fn no_token(at: &[u8]) -> &'static str {
    match at {
        [b'/', ..] | [b'%', ..] => "a comment begins with # and ends with its line",
        [b'!', ..] => "`!=` compares, and `~` is not",
        [b'_', ..] => "a name begins with a small letter",
        [b'"', ..] | [b'\'', ..] => "there is no text between quotation marks in a layer file",
        [first, ..] if first.is_ascii_uppercase() => {
            "names are small letters, digits and _: State is no name, and state a keyword"
        }
        [first, ..] if first.is_ascii_digit() => {
            "a number has no leading zeros and is below 2^64"
        }
        _ => "",
    }
}

/// The operators, those before others that they begin with.
const OPERATORS: [&[u8]; 17] = [
    b"==", b"!=", b"<=", b">=", b"<<", b">>", b"=>", b"<", b">", b"+", b"-", b"*", b"&", b"|",
    b"^", b"/", b"%",
];

/// The keywords that begin a part of a layer.
const PARTS: [&[u8]; 12] = [
    b"state", b"start", b"memory", b"format", b"op", b"crash", b"tick", b"recover", b"relate",
    b"always", b"settled", b"maybe",
];

/// Whether the text begins with one of these.
fn begins_with_one(at: &[u8], all: &[&[u8]]) -> bool {
    all.iter().any(|one| at.starts_with(one))
}

/// What may help at an operator that no file goes on with.
fn operator_hint(line: &[u8], at: &[u8]) -> &'static str {
    if at.starts_with(b"&&") || (at.starts_with(b"&") && line.ends_with(b"&")) {
        return "`&` is and: ((a == b) & (c == d))";
    }
    if at.starts_with(b"||") || (at.starts_with(b"|") && line.ends_with(b"|")) {
        return "`|` is or: ((a == b) | (c == d))";
    }
    if at.starts_with(b"++") || at.starts_with(b"+=") || at.starts_with(b"-=") {
        return "a variable is set with `=`: x = (x + 1:8);";
    }
    "each operator has brackets of its own: (a == b), ((a + b) + c)"
}

/// Whether a line ends with a number that has no width.
fn ends_with_bare_number(line: &[u8]) -> bool {
    let digits = line
        .iter()
        .rev()
        .take_while(|byte| byte.is_ascii_digit())
        .count();
    let rest = line.get(..line.len().saturating_sub(digits)).unwrap_or(&[]);
    let is_part = rest
        .last()
        .is_some_and(|byte| is_of_word(*byte) || *byte == b':');
    digits > 0 && !is_part
}

/// What may help at a token that no file goes on with, by the code before it in its line and by what may stand there, where that is known.
fn token_hint(line: &[u8], at: &[u8], expected: &str) -> &'static str {
    let wants_width = expected.is_empty() || expected.contains("`:`");
    if at.starts_with(b"x") && line.ends_with(b"0") {
        return "numbers are decimal: 16:8 and not 0x10";
    }
    if wants_width && ends_with_bare_number(line) {
        return "a number has a width: 1:8 is 1 in 8 bits";
    }
    if begins_with_one(at, &OPERATORS) {
        return operator_hint(line, at);
    }
    if at.starts_with(b"=") {
        return "`==` compares: (a == b); `=` sets a variable, as a statement";
    }
    if word_of(at) == b"if".as_slice() && line.ends_with(b"else") {
        return "there is no `else if`: else { if (a == b) { .. } }";
    }
    if at.starts_with(b")") && expected.contains("an operator") {
        return "brackets hold two operands and their operator: (a == b); a value alone has none";
    }
    if at.starts_with(b"(") {
        return "an operation is called with `call`: call write(0:8, r); let r = call read(0:8);";
    }
    if PARTS.iter().any(|part| word_of(at) == *part) {
        return "a layer's parts stand in this order: state, start, memory, format, op, crash, tick, recover, relate, always, settled, maybe";
    }
    if at.is_empty() {
        return "the file ends too early: each { wants its }, and each layer a relate";
    }
    ""
}

/// What may help where a name means nothing, by its kind alone.
fn name_hint(line: &[u8], word: &[u8], at: &[u8]) -> &'static str {
    let rest = at.get(word.len()..).unwrap_or(&[]);
    if word == b"true".as_slice() || word == b"false".as_slice() {
        return "1:1 is true, and 0:1 is false";
    }
    if line.ends_with(b"call") {
        return "`call` takes an operation of the layer below, or of the disk: read, write, flush";
    }
    if rest.starts_with(b"(") {
        return "a definition stands before what uses it, and an operation is called with `call`: let r = call read(0:8);";
    }
    "state is seen in spec, memory and arguments in impl, `low` in relate, always and settled alone"
}

/// What may help where a name means nothing: a name of the file that may be meant, and where names are seen.
pub fn not_known(
    alloc: Global,
    text: &[u8],
    before: &[u8],
    at: &[u8],
) -> Result<String, AllocError> {
    let word = word_of(at);
    let hint = name_hint(line_before(before).trim_ascii(), word, at);
    let near = nearest_declared(alloc, text, str::from_utf8(word).unwrap_or(""))?;
    if near.is_empty() {
        return format!(in alloc; "{hint}");
    }
    format!(in alloc; "did you mean {near}? {hint}")
}

/// What may help where no file goes on with a token: what may stand there, and what may be meant.
pub fn not_here(alloc: Global, before: &[u8], at: &[u8]) -> Result<String, AllocError> {
    let (_, number) = last_code(before);
    let line = line_before(before).trim_ascii();
    if line.is_empty() && !begins_with_one(at, &OPERATORS) && wants_semicolon(alloc, before)? {
        return format!(in alloc; "expected `;` after line {number}");
    }
    let expected = goes_on_with(alloc, before)?;
    let hint = token_hint(line, at, expected.as_str());
    if expected.is_empty() || hint.is_empty() {
        let word = if expected.is_empty() { "" } else { "expected " };
        return format!(in alloc; "{word}{expected}{hint}");
    }
    format!(in alloc; "expected {expected}; {hint}")
}
