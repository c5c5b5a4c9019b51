//! What the rules of the grammar are told apart by.

/// What a block is for.
#[derive(Clone, Copy)]
pub enum BlockKind {
    /// `start`: neither choices nor calls.
    Plain,
    /// `spec`, `on crash` and `crash`: it may choose.
    Spec,
    /// `impl`, `format`, `tick` and `recover`: it may call the machine below.
    Impl,
}

/// Which types may stand in a place.
#[derive(Clone, Copy)]
pub enum Sort {
    /// Words, rows and tables.
    All,
    /// Words and rows.
    Small,
}
