/// What a disk keeps when power fails.
#[derive(Clone, Copy, PartialEq, Eq)]
pub enum DiskKind {
    /// Each whole write.
    Sync,
    /// What was written before the last flush, and of the later writes some.
    Async,
}

/// The kind of a disk and its size.
#[derive(Clone, Copy)]
pub struct Geometry {
    pub kind: DiskKind,
    /// How many rows it has, 1 to 256.
    pub rows: u16,
    /// How many words a row has, 1 to 64.
    pub words: u8,
    /// How many bits a word has, 1 to 64.
    pub width: u8,
}
