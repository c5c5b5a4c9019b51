ghost use Rattle.std.specs.Prelude.{◌≡◌};
ghost use Rattle.ygg_script.specs.Flaws.{number_of, refusal_at};

use ygg_base::Refusal;

/// Why a line of a script is refused.
#[derive(Clone, Copy, Drop)]
pub enum ScriptFlaw {
    /// It isn't of a form that may stand there, it is missing, it has no line feed, or it follows `end`.
    Line,
    /// Its operation, layer or background step isn't one of the file.
    Operation,
    /// It has more or fewer values than its operation has arguments, or one that hasn't its argument's shape.
    Argument,
}

impl ScriptFlaw {
    /// The number that a refusal gives for it.
    pub fn number(self) -> u8
        ensures { result ≡ number_of self }
    {
        match self {
            ScriptFlaw::Line => 41,
            ScriptFlaw::Operation => 42,
            ScriptFlaw::Argument => 43,
        }
    }

    /// The refusal for it at the line of this number.
    pub fn at(self, line: u32) -> Refusal
        ensures { result ≡ refusal_at self line }
    {
        Refusal {
            number: self.number(),
            line,
            column: 1,
        }
    }
}
