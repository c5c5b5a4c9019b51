//! Why calls on the system failed.

use std::io::Error;

/// A call on an image or a file that may fail.
#[derive(Clone, Copy, PartialEq, Eq, Drop)]
pub enum Call {
    /// It is opened.
    Open,
    /// It is made, where nothing stands under its name.
    Create,
    /// It is locked for this program alone.
    Lock,
    /// It is read.
    Read,
    /// It is written.
    Write,
    /// What was written is to stay when power fails.
    Flush,
}

/// What was wrong.
#[derive(Clone, Copy, Drop)]
pub enum Cause {
    /// The system's own error.
    System(Error),
    /// Less was moved than was asked for, and the system gave no error.
    Short,
    /// It gives more than it may.
    Endless,
    /// What stands under the name is a folder, or something else that isn't read so.
    NoFile,
    /// What stands under the name is no image, and so isn't overwritten.
    NoImage,
    /// What stands under the name is a link that leads to nothing.
    LooseLink,
    /// Another program uses it.
    InUse,
}

/// A call that failed.
#[derive(Clone, Copy, Drop)]
pub struct Failure {
    /// The call.
    pub call: Call,
    /// What was wrong.
    pub cause: Cause,
}

impl Failure {
    /// The failure of a call by the system's error.
    pub fn system(call: Call, error: Error) -> Failure {
        Failure {
            call,
            cause: Cause::System(error),
        }
    }
}
