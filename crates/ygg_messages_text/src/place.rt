//! Places of texts.

/// The place in a text of a line and a column, counted from 1; its end where it has no such line.
fn offset_of(text: &[u8], line: u32, column: u32) -> usize {
    let mut row = 1u32;
    let mut start = 0usize;
    for (place, byte) in text.iter().enumerate() {
        if row == line {
            return start.saturating_add(column.saturating_sub(1) as usize);
        }
        if *byte == b'\n' {
            row = row.saturating_add(1);
            start = place.saturating_add(1);
        }
    }
    if row == line {
        return start.saturating_add(column.saturating_sub(1) as usize);
    }
    text.len()
}

/// What stands before a place of a text, and what stands from it on.
pub fn parted(text: &[u8], line: u32, column: u32) -> (&[u8], &[u8]) {
    let offset = offset_of(text, line, column);
    (
        text.get(..offset).unwrap_or(text),
        text.get(offset..).unwrap_or(&[]),
    )
}

/// A line of a text, counted from 1, without its line feed.
pub fn line_of(text: &[u8], line: u32) -> &[u8] {
    let (_, rest) = parted(text, line, 1);
    rest.split(|byte| *byte == b'\n').next().unwrap_or(&[])
}

/// What stands in a line before a place, of a text that ends there.
pub fn line_before(before: &[u8]) -> &[u8] {
    before.rsplit(|byte| *byte == b'\n').next().unwrap_or(&[])
}

/// A line of a layer file without its comment and the blanks round it.
pub fn code_of(line: &[u8]) -> &[u8] {
    line.split(|byte| *byte == b'#')
        .next()
        .unwrap_or(&[])
        .trim_ascii()
}

/// The last code of a text before a place, and the number of its line.
pub fn last_code(before: &[u8]) -> (&[u8], u32) {
    let mut last = (before.get(..0).unwrap_or(&[]), 0u32);
    let mut number = 0u32;
    for line in before.split(|byte| *byte == b'\n') {
        number = number.saturating_add(1);
        let code = code_of(line);
        if !code.is_empty() {
            last = (code, number);
        }
    }
    last
}

/// The word of small letters, digits and `_` that a text begins with.
pub fn word_of(at: &[u8]) -> &[u8] {
    let length = at.iter().take_while(|byte| is_of_word(**byte)).count();
    at.get(..length).unwrap_or(&[])
}

/// Whether a byte may stand in a name, a keyword or a number.
pub fn is_of_word(byte: u8) -> bool {
    byte.is_ascii_lowercase() || byte.is_ascii_digit() || byte == b'_'
}
