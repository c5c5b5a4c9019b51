ghost use Rattle.std.specs.Prelude.{◌≡◌};
ghost use Rattle.ygg_base.specs.Reason.{number_of, refusal_at};

use crate::failure::Refusal;

/// Why a text or the words of a command are refused. The definitions of the language say of each rule which of these breaks it.
#[derive(Clone, Copy, Drop)]
pub enum Reason {
    /// A byte of 128 or more.
    NotAscii,
    /// Bytes that are no token.
    Token,
    /// A token that no rule of the grammar allows there.
    Syntax,
    /// A name that isn't in scope.
    Unknown,
    /// A name that is taken.
    Twice,
    /// A width, a value that is too great for its width, or two widths that differ.
    Width,
    /// A shape where another is wanted, or a wrong count of arguments.
    Shape,
    /// A count out of its range.
    Limit,
    /// A declaration that is too long when its calls are written out.
    TooLong,
    /// A declaration that takes too many choices.
    TooManyChoices,
    /// A file with more bytes than are read.
    TooLarge,
    /// The words of a command.
    Words,
    /// A word that is to be a number.
    Number,
    /// A file that isn't there.
    Absent,
    /// A name that no obligation of the file has.
    NoObligation,
}

impl Reason {
    /// The number that a refusal gives for it.
    pub fn number(self) -> u8
        ensures { result ≡ number_of self }
    {
        match self {
            Reason::NotAscii => 1,
            Reason::Token => 2,
            Reason::Syntax => 3,
            Reason::Unknown => 4,
            Reason::Twice => 5,
            Reason::Width => 6,
            Reason::Shape => 7,
            Reason::Limit => 8,
            Reason::TooLong => 9,
            Reason::TooManyChoices => 10,
            Reason::TooLarge => 11,
            Reason::Words => 71,
            Reason::Number => 72,
            Reason::Absent => 73,
            Reason::NoObligation => 74,
        }
    }

    /// The refusal for it at a line and a column.
    pub fn at(self, line: u32, column: u32) -> Refusal
        ensures { result ≡ refusal_at self line column }
    {
        Refusal {
            number: self.number(),
            line,
            column,
        }
    }
}
