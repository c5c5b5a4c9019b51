//! What runs over terms on a disk are worth.

ghost use Rattle.ygg_sym_laws.specs.DiskLaws.{DiskFalls, DiskLoss, DiskStart, DiskWhole};

/// Whole runs over terms of a typed block on a disk: in each environment they are worth some run, and each run is one of theirs in the environments with
/// certain picks.
pub fn disk_whole()
    ensures { DiskWhole }
{}

/// Runs over terms of a typed block on a disk that power cuts: in each environment in which they come to a stop that is set they are worth some run that
/// power cuts, and each such run is one of theirs in the environments with certain picks and stops.
pub fn disk_falls()
    ensures { DiskFalls }
{}

/// What power loss between operations leaves of a disk over terms is what it leaves of the disk.
pub fn disk_loss()
    ensures { DiskLoss }
{}

/// A disk over terms starts as the disk does.
pub fn disk_start()
    ensures { DiskStart }
{}
