//! What is decided of an obligation by its term.

ghost use Rattle.ygg_certify.specs.Laws.{NeverZeroHolds, ZeroIsViolated, EachIsDecided};

/// An obligation whose term is 0 in no environment holds.
pub fn never_zero_holds()
    ensures { NeverZeroHolds }
{}

/// Where an obligation's term is 0 in an environment, some schedule violates the obligation.
pub fn zero_is_violated()
    ensures { ZeroIsViolated }
{}

/// Each obligation with a term holds, or some schedule violates it.
pub fn each_is_decided()
    ensures { EachIsDecided }
{}
