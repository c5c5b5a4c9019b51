//! Laws of replaced states. A call does nothing; what it ensures holds.

ghost use Rattle.ygg_shape.specs.Laws.{HypothesisAgain, ImpliedByState};

/// Conclusions and hypotheses that are made from replaced states.
pub fn replaced_states()
    ensures implied { ImpliedByState }
    ensures again { HypothesisAgain }
{}
