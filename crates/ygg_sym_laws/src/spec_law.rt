//! What runs over terms on the specification of the layer below are worth.

ghost use Rattle.ygg_sym_laws.specs.SpecLaws.{FallsOnSpec, LossOnSpec, StartOnSpec, WholeOnSpec};

/// Whole runs over terms of a typed block on a specification: in each environment they are worth some run, and each run is one of theirs in the
/// environments with certain picks.
pub fn spec_whole()
    ensures { WholeOnSpec }
{}

/// Runs over terms of a typed block on a specification that power cuts: in each environment in which they come to a stop that is set they are worth some
/// run that power cuts, and each such run is one of theirs in the environments with certain picks and stops.
pub fn spec_falls()
    ensures { FallsOnSpec }
{}

/// What power loss between operations leaves of a specification over terms is what it may leave of the specification, and the other way round.
pub fn spec_loss()
    ensures { LossOnSpec }
{}

/// A specification over terms starts as the specification does.
pub fn spec_start()
    ensures { StartOnSpec }
{}
