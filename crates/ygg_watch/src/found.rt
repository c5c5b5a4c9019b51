/// How propagation ended.
#[derive(Clone, Copy, PartialEq, Eq)]
pub enum Found {
    /// No held clause is false, and none is left with one literal.
    Quiet,
    /// The held clause of this number is false.
    False(u64),
}

/// The value of a variable, with the level at which it was assigned and the number of the clause that implied it. A decided
/// variable has no reason.
#[derive(Clone, Copy)]
pub struct Assigned {
    pub value: bool,
    pub level: u64,
    pub reason: Option<u64>,
}
