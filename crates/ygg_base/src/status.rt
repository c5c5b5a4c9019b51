ghost use Rattle.std.specs.Prelude.{◌≡◌};
ghost use Rattle.ygg_base.specs.Status.{number_of};

/// How a command ends.
#[derive(Clone, Copy, Drop)]
pub enum Status {
    /// The command did all that it was asked for.
    Done,
    /// An obligation fails.
    Refuted,
    /// The words or a text are refused.
    Refused,
    /// No obligation fails, and at least one used its whole budget.
    Undecided,
    /// A file or the output failed.
    Fault,
    /// No memory was left.
    NoMemory,
}

/// The exit status of the process.
pub fn status_number(status: Status) -> u8
    ensures { result ≡ number_of status }
{
    match status {
        Status::Done => 0,
        Status::Refuted => 1,
        Status::Refused => 2,
        Status::Undecided => 3,
        Status::Fault => 4,
        Status::NoMemory => 5,
    }
}
