//! The status with which a command ends by the verdicts on a file's obligations.
#![tactic(auto)]

ghost use Rattle.std.specs.Prelude.{◌≡◌, if◌then◌else◌};
ghost use Rattle.ygg_base.specs.declared.status.Status.TheVariants.{Done, Refuted, Undecided};

use ygg_base::Status;

/// The status that verdicts come to: refuted where an obligation fails, else undecided where the budget was spent on one, else done.
pub fn status_by(fails: bool, spends: bool) -> Status
    ensures { result ≡ (if fails then Refuted else if spends then Undecided else Done) }
{
    if fails {
        Status::Refuted
    } else if spends {
        Status::Undecided
    } else {
        Status::Done
    }
}
