//! What replaying a schedule shows.

use ygg_base::Bits;

/// What replaying a schedule shows.
#[derive(Drop)]
pub enum Replayed {
    /// The schedule violates its obligation: the hypotheses hold, and the conclusion fails whatever the specification picks.
    Shows,
    /// This is the first false hypothesis, counted from 0: the layer's `relate` and `always` in order, or its `settled`, and then that the
    /// stop is reached.
    Hypothesis(u32),
    /// The hypotheses hold, and this is the first list of the specification's picks with which the conclusion holds. Lists are in the order
    /// of their binary numbers, the first pick the highest digit.
    Holds(Bits),
}
