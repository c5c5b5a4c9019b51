//! Laws of blocks and of schedules.

ghost use Rattle.ygg_meaning.specs.Laws.{AnswersInOrder, ReplayEnds};

/// A block that asks for something after some answers has asked for something after each shorter list of them.
pub fn answers_in_order()
    ensures { AnswersInOrder }
{}

/// A schedule that meets the hypotheses of an obligation violates it, or there is a first list of the specification's picks with which the
/// conclusion holds.
pub fn replay_ends()
    ensures { ReplayEnds }
{}
