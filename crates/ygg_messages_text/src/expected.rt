//! What may stand at a place of a layer file, by asking the reader of layer files of each construct and token.

use crate::tokens::tokens_in;
use std::alloc::{AllocError, Global};
use ygg_base::Refuse;
use ygg_read::read;

/// The longest text that is read again for each construct and token.
const MOST_BYTES: usize = 65_536;

/// A name.
const NAME: &str = "name";

/// A number.
const NUMBER: &str = "1";

/// The constructs of many kinds, each with a token that stands where it begins and nowhere else.
const CONSTRUCTS: [(&str, &str); 4] = [
    ("an expression", "~"),
    ("an operator", "+"),
    ("a statement", "let"),
    ("a type", "table"),
];

/// The tokens that may stand where no construct begins, or beside one.
const TOKENS: [&str; 43] = [
    NAME,
    NUMBER,
    "yggdrasil",
    "disk",
    "sync",
    "async",
    "of",
    "def",
    "word",
    "row",
    "layer",
    "state",
    "start",
    "memory",
    "format",
    "op",
    "crash",
    "tick",
    "recover",
    "relate",
    "always",
    "settled",
    "maybe",
    "spec",
    "on",
    "impl",
    "below",
    "return",
    "else",
    "call",
    "choose",
    "{",
    "}",
    "(",
    ")",
    "[",
    "]",
    ";",
    ":",
    ",",
    ".",
    "=",
    "->",
];

/// Whether a construct may begin with this one of the tokens.
fn may_begin(construct: &str, token: &str) -> bool {
    match construct {
        "an expression" => token == NAME || token == NUMBER || token == "row" || token == "(",
        "a statement" => token == NAME || token == "call",
        "a type" => token == "word" || token == "row",
        _ => false,
    }
}

/// Whether a text goes on with a token: what is read with it is a file, or ends too early.
fn takes(alloc: Global, before: &[u8], token: &str) -> Result<bool, AllocError> {
    let mut text = Vec::from_slice(alloc, before)?;
    text.extend_from_slice(b"\n")?;
    text.extend_from_slice(token.as_bytes())?;
    let Some(tokens) = tokens_in(alloc, text.as_slice()) else {
        return Ok(false);
    };
    match read(alloc, &tokens) {
        Ok(_) => Ok(true),
        Err(Refuse::At(refusal)) => Ok(
            refusal.line == tokens.line && refusal.column == tokens.column,
        ),
        Err(Refuse::Memory) => Ok(false),
    }
}

/// A token as a person is told of it.
fn token_shown(alloc: Global, token: &str) -> Result<String, AllocError> {
    match token {
        NAME => format!(in alloc; "a name"),
        NUMBER => format!(in alloc; "a number"),
        _ => format!(in alloc; "`{token}`"),
    }
}

/// The constructs and the tokens with which a text goes on, as a person is told of them.
fn all_expected(alloc: Global, before: &[u8]) -> Result<Vec<String>, AllocError> {
    let mut found = Vec::new(alloc);
    let mut begun = CONSTRUCTS.len();
    for (place, (construct, token)) in CONSTRUCTS.iter().enumerate() {
        if takes(alloc, before, token)? {
            begun = place;
            found.push(format!(in alloc; "{construct}")?)?;
        }
    }
    let construct = match CONSTRUCTS.get(begun) {
        Some((construct, _)) => *construct,
        None => "",
    };
    for token in &TOKENS {
        if !may_begin(construct, token) && takes(alloc, before, token)? {
            found.push(token_shown(alloc, token)?)?;
        }
    }
    Ok(found)
}

/// Whether a text goes on with a semicolon.
pub fn wants_semicolon(alloc: Global, before: &[u8]) -> Result<bool, AllocError> {
    if before.len() > MOST_BYTES {
        return Ok(false);
    }
    takes(alloc, before, ";")
}

/// With what a text goes on that ends too early, as `A`, `A or B`, or `A, B or C`; no text where it is long.
pub fn goes_on_with(alloc: Global, before: &[u8]) -> Result<String, AllocError> {
    let mut out = format!(in alloc; "")?;
    if before.len() > MOST_BYTES {
        return Ok(out);
    }
    let found = all_expected(alloc, before)?;
    let last = found.len().saturating_sub(1);
    for (place, one) in found.as_slice().iter().enumerate() {
        if place > 0 {
            out.push_str(if place == last { " or " } else { ", " })?;
        }
        out.push_str(one.as_str())?;
    }
    Ok(out)
}
