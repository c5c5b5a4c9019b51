//! Which inputs an obligation has.

/// Where the inputs of an obligation begin: those of its arguments, of the run's picks, of its stops, of the failure's picks, of the recovery's
/// picks and of the other recovery's; and the number after all of them.
#[derive(Clone, Copy)]
pub struct SymNumbers {
    /// The first input of its arguments.
    pub args: u64,
    /// The first of the run's picks.
    pub run: u64,
    /// The first of its stops.
    pub stop: u64,
    /// The first of the failure's picks.
    pub last: u64,
    /// The first of the recovery's picks.
    pub wake: u64,
    /// The first of the other recovery's picks.
    pub other: u64,
    /// The number after all of them.
    pub next: u64,
}
