//! Places of a text, and what is left of one there.

ghost use Rattle.std.specs.Prelude.{◌+◌, ◌≤◌, length};
ghost use Rattle.ygg_dimacs.specs.Sizes.{left_size};

/// A place: line and column, counted from 1.
#[derive(Clone, Copy)]
pub struct TextPlace {
    /// The line.
    pub line: u32,
    /// The column.
    pub column: u32,
}

/// A line with its number, counted from 1.
#[derive(Clone, Copy)]
pub struct Line<'a> {
    /// Its bytes, without its line feed.
    pub bytes: &'a [u8],
    /// Its number.
    pub number: u32,
    ghost bounded: { length bytes.now ≤ 67108865 },
}

/// A word with the place of its first byte.
#[derive(Clone, Copy)]
pub struct TextWord<'a> {
    /// Its bytes.
    pub bytes: &'a [u8],
    /// Its line.
    pub line: u32,
    /// The column.
    pub column: u32,
}

/// What is left of a text: the lines of these bytes from a number on, or none after the place at which the text has ended.
#[derive(Clone, Copy)]
pub struct TextRest<'a> {
    /// The bytes, where lines are left.
    pub bytes: Option<&'a [u8]>,
    /// The number of the first line that is left, or the line of the end.
    pub line: u32,
    /// 1, or the column of the end.
    pub column: u32,
    ghost bounded: { line + left_size bytes ≤ 67108866 },
}

/// What is left of a line: the bytes from a column on.
#[derive(Clone, Copy)]
pub struct Onward<'a> {
    /// The bytes.
    pub bytes: &'a [u8],
    /// The line's number.
    pub line: u32,
    /// The column of the first byte.
    pub column: u32,
    ghost bounded: { column + length bytes.now ≤ 67108867 },
}
