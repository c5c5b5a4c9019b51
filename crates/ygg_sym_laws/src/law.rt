//! Runs with picks by place are runs that take these picks from the front.

ghost use Rattle.ygg_sym_laws.specs.FrontLaws.{FallsNamed, LossNamed, RunsNamed, StartNamed};

/// A whole run of a typed block with bits by place is a run of the machine below which takes just the picks that are named, in this order.
pub fn runs_named()
    ensures { RunsNamed }
{}

/// So is a run that power cuts at a stop that it comes to.
pub fn falls_named()
    ensures { FallsNamed }
{}

/// So is power loss between operations.
pub fn loss_named()
    ensures { LossNamed }
{}

/// What is below starts in the state that is named.
pub fn start_named()
    ensures { StartNamed }
{}
