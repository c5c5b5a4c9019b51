//! How a part of a block ends.

/// Why a run ends before its block does.
#[derive(Clone, Copy)]
pub enum Break {
    /// The stop was reached, and power failed there.
    Stopped,
    /// A call answered that power failed.
    Down,
    /// A call answered that what lies below failed.
    Failed,
}

/// Whether a part of a block goes on, with what it gives, or the run ends in it.
#[derive(Drop)]
pub enum Flow<T> {
    Goes(T),
    Breaks(Break),
}
