//! What may help where something is refused, by its number and what stands there.

use crate::layer_hint::{no_token, not_ascii, not_here, not_known};
use std::alloc::{AllocError, Global};
use ygg_base::Refusal;
use ygg_messages_text::{line_of, parted, types_at};

/// What may help where a line of a schedule, a script or a certificate is refused.
fn line_hint(line: &[u8], is_last: bool) -> &'static str {
    if line.ends_with(b"\r") {
        return "the line ends with a carriage return: lines end with a line feed alone";
    }
    if line.starts_with(b"#") {
        return "there are no comments here";
    }
    if line.is_empty() {
        return "there are no empty lines here, and the last line is `end`";
    }
    if line.windows(2).any(|pair| pair == b"  ".as_slice())
        || line.ends_with(b" ")
        || line.starts_with(b" ")
    {
        return "one blank stands between words, and none before or after them";
    }
    if is_last {
        return "the last line too ends with a line feed";
    }
    ""
}

/// The same of a schedule.
fn schedule_hint(line: &[u8], number: u32, is_last: bool) -> &'static str {
    if number > 1 || line.starts_with(b"ygg-schedule") {
        return line_hint(line, is_last);
    }
    if line.starts_with(b"ygg-script") {
        return "this is a script, which play and run take";
    }
    "what verify prints above the line ygg-schedule 1 is cut off: sed -n '/^ygg-schedule/,$p'"
}

/// The same of a script.
fn script_hint(line: &[u8], number: u32, is_last: bool) -> &'static str {
    if number == 1 && line.starts_with(b"ygg-schedule") {
        return "this is a schedule, which replay takes";
    }
    if number == 1 && !line.starts_with(b"ygg-script") {
        return "a script begins with the line ygg-script 1 and has no comments";
    }
    let usual = line_hint(line, is_last);
    if !usual.is_empty() {
        return usual;
    }
    if line.starts_with(b"lost") || line.starts_with(b"fail") || line.starts_with(b"keep") {
        return "play takes lost, fail before N, fail within N, keep 0101; run takes none of these, since on a real disk power fails by itself";
    }
    "lines are: call OPERATION VALUES, tick LAYER.NAME, and for play also lost, fail, keep"
}

/// What may help where a value of a script or a schedule is refused.
fn value_hint(line: &[u8]) -> &'static str {
    if line.iter().any(|byte| byte.is_ascii_uppercase()) {
        return "hexadecimal digits are small letters: ff and not FF";
    }
    if line.ends_with(b"\r") {
        return "the line ends with a carriage return: lines end with a line feed alone";
    }
    "a word has as many hexadecimal digits as its width wants, and no 0x: 01 for 8 bits; a row has , between words"
}

/// What may help by the number alone.
fn number_hint(number: u8) -> &'static str {
    match number {
        5 => "a name means one thing in all that can see it, arguments and `let` too",
        7 => "r[0:1] is a word of a row, row(v) a row of a word, and (a == b) a bit",
        6 => "resize(e, 8) makes a word 8 bits wide, 1:8 is 1 in 8 bits, and (a == b) has 1 bit",
        8 =>
            "a disk has 1 to 256 rows of 1 to 64 words of 1 to 64 bits, at most 4096 words; a file has at most 8 layers",
        9 => "smaller tables, fewer rounds of `for`, or a layer in between",
        10 => "each `choose`, and each fall that the specification may take, doubles the cases",
        21 =>
            "ygg certify FILE > CERT makes one; the words stand in the order FILE CERT IMAGE SCRIPT",
        22 | 24 => "was the layer file changed, or certify cut off? then certify it again",
        32 | 33 =>
            "a schedule is of the file that it was printed for; was that changed? then verify it again",
        34 => "was the file cut off? it ends with the line `end`",
        42 => "operations are named as in the file, and background steps LAYER.NAME",
        _ => "",
    }
}

/// What may help where a text is refused.
pub fn hint(alloc: Global, text: &[u8], refusal: Refusal) -> Result<String, AllocError> {
    let (before, at) = parted(text, refusal.line, refusal.column);
    let line = line_of(text, refusal.line);
    let is_last = at.len() <= line.len();
    let found = match refusal.number {
        1 => not_ascii(at),
        2 => no_token(at),
        3 => return not_here(alloc, before, at),
        4 => return not_known(alloc, text, before, at),
        6 | 7 => return type_hint(alloc, text, refusal),
        31 => schedule_hint(line, refusal.line, is_last),
        41 => script_hint(line, refusal.line, is_last),
        43 => value_hint(line),
        number => number_hint(number),
    };
    format!(in alloc; "{found}")
}

/// What may help where a width or a type doesn't fit.
fn type_hint(alloc: Global, text: &[u8], refusal: Refusal) -> Result<String, AllocError> {
    let usual = number_hint(refusal.number);
    let types = types_at(alloc, text, refusal)?;
    match types {
        Some(types) => format!(in alloc; "{types}; {usual}"),
        None => format!(in alloc; "{usual}"),
    }
}
