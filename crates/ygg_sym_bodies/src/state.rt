//! What runs over terms begin with, and what they leave.

use ygg_bank::Id;
use ygg_shape_cells::{SymValue, SymValues};

/// Terms for all that a block sees: the variables that it changes, which are the specification's state for `start`, `spec`, `on crash` and
/// `crash` and the memory for the other parts, its arguments, and the state of what its layer is specified over.
#[derive(Drop)]
pub struct SymState {
    /// The variables.
    pub vars: SymValues,
    /// The arguments.
    pub args: SymValues,
    /// The tables of the disk, or the variables of the specification of the layer below.
    pub low: SymValues,
}

/// Which inputs of the bank a run has, by their numbers. Each is a single digit.
#[derive(Clone, Copy)]
pub struct Inputs {
    /// The first pick: those of the run's places follow one another.
    pub picks: u64,
    /// The first stop: those of the static stop points follow one another.
    pub stops: u64,
    /// The first pick of the failure.
    pub failure: u64,
    /// The number after the last input.
    pub next: u64,
}

/// What a run over terms leaves.
#[derive(Drop)]
pub struct SymRun {
    /// Terms for all that the block sees after it. Where power cuts, the variables are zeros, which memory is after power loss.
    pub after: SymState,
    /// The answer, if the block returns one and power doesn't cut.
    pub answer: Option<SymValue>,
    /// Whether the run comes to a stop that is set; 1 where it is to have none.
    pub reached: Id,
    /// The inputs of the run.
    pub inputs: Inputs,
}
