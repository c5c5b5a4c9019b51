//! What the disks have in common.

ghost use Rattle.ygg_disk.specs.Agree.{Agree};
ghost use Rattle.ygg_disk.specs.Laws.{PicksAreCounted};

/// After every list of calls and power failures, the asynchronous disk can have given these replies and can leave these
/// rows at the next power loss exactly where the disk with a write-back cache can.
pub fn agree()
    ensures { Agree }
{}

/// A call takes as many picks as its kind of disk says, whether it is whole or power fails within it.
pub fn picks_are_counted()
    ensures { PicksAreCounted }
{}
