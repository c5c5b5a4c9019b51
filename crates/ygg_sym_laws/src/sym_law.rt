//! What runs over terms are worth: the runs with the picks that the environment names by place.

ghost use Rattle.ygg_sym_laws.specs.SymLaws.{FallsAreNamed, LossIsNamed, RunsAreNamed, StartIsNamed};

/// In each environment a whole run over terms of a typed block is worth the run with the picks that the environment names by place, and so a run of the
/// machine below with just these picks, from the front.
pub fn runs_are_named()
    ensures { RunsAreNamed }
{}

/// So is a run that power cuts: it comes to a stop that is set just where that run does, and leaves what power leaves there.
pub fn falls_are_named()
    ensures { FallsAreNamed }
{}

/// So is power loss between operations.
pub fn loss_is_named()
    ensures { LossIsNamed }
{}

/// The start over terms is worth the start of what is below.
pub fn start_is_named()
    ensures { StartIsNamed }
{}
