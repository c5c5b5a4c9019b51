ghost use Rattle.std.specs.Prelude.{◌≡◌};
ghost use Rattle.ygg_dimacs.specs.Flaws.{number_of, refusal_at};

use ygg_base::Refusal;

/// Why a text of clauses is refused.
#[derive(Clone, Copy, Drop)]
pub enum ClausesFlaw {
    /// The first line that counts isn't the header, or there is none.
    Header,
    /// A word isn't a number of digits within the header's number of variables.
    Number,
    /// A word follows the last clause, or fewer clauses have ended than the header says.
    Count,
}

impl ClausesFlaw {
    /// The number that a refusal gives for it.
    pub fn number(self) -> u8
        ensures { result ≡ number_of self }
    {
        match self {
            ClausesFlaw::Header => 61,
            ClausesFlaw::Number => 62,
            ClausesFlaw::Count => 63,
        }
    }

    /// The refusal for it at a line and a column.
    pub fn at(self, line: u32, column: u32) -> Refusal
        ensures { result ≡ refusal_at self line column }
    {
        Refusal {
            number: self.number(),
            line,
            column,
        }
    }
}
