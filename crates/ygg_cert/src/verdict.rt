//! What is said of a text as a certificate.

use ygg_base::{Refusal, Text};

/// What is said of a whole text.
#[derive(Drop)]
pub enum CertEnd {
    /// It is a certificate for all of so many goals.
    Checked(u32),
    /// In the log of the goal of this name, the clause of this number isn't derived by its chain; or, with the number 0, the log ends and
    /// no empty clause is held.
    Bad { name: Text, id: u64 },
    /// It is refused: 21 where its first line is another, 22 where a line is another than the one that may stand there, 24 where it ends too early.
    Refused(Refusal),
    /// No memory was left.
    Memory,
}

/// What is said of the bytes of a text so far.
#[derive(Clone, Copy, Drop)]
pub enum Fed {
    /// They hold no line at fault.
    More,
    /// They hold a line at fault, which no further bytes mend.
    Over,
    /// No memory was left, and the reader is given up.
    Memory,
}

/// What is said of the bytes of a line so far.
#[derive(Clone, Copy)]
pub enum Heard {
    /// They are a front of a line that may stand there.
    More,
    /// They are the line of a clause, which is now held.
    Added,
    /// They are a line after which another kind of line comes.
    Whole,
    /// They are a line at fault in a log: its clause, of this number, isn't derived; or, with 0, no empty clause is held.
    Bad(u64),
    /// They can't be continued to a line that may stand there.
    Wrong,
    /// The reading was over before.
    Nothing,
}
