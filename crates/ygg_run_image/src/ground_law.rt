//! A law of disks that devices hold. A call does nothing; what it ensures holds.

ghost use Rattle.ygg_run_image.specs.GroundLaws.{FailedCallsLeaveBlocks};

/// After a call that failed or found no memory each block of the attached image is as before or as the call writes it, and what power failure leaves of it
/// may also be what was read before.
pub fn failed_calls_leave_blocks()
    ensures { FailedCallsLeaveBlocks }
{}
