//! What is left of a text.

ghost use Rattle.std.specs.Prelude.{◌+◌, ◌≤◌, length};

/// What is left of a text, which begins with the line of this number, counted from 1.
#[derive(Clone, Copy)]
pub struct Rest<'a> {
    /// The bytes.
    pub bytes: &'a [u8],
    /// The line's number.
    pub line: u32,
    ghost bounded: { line + length bytes.now ≤ 67108865 },
}
