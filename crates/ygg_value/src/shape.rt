/// What a value is like, without its numbers. Widths are in binary digits.
#[derive(Clone, Copy, PartialEq, Eq)]
pub enum Shape {
    /// A number of 1 to 64 digits.
    Word { width: u8 },
    /// 1 to 64 words of one width.
    Row { words: u8, width: u8 },
    /// 1 to 256 rows of as many words each, and at most 4,096 words in all.
    Table { rows: u16, words: u8, width: u8 },
}
