ghost use Rattle.std.specs.Prelude.{◌≡◌};
ghost use Rattle.ygg_sched.specs.Flaws.{number_of, refusal_at};

use ygg_base::Refusal;

/// Why a line of a schedule is refused.
#[derive(Clone, Copy, Drop)]
pub enum ScheduleFlaw {
    /// It isn't of the form that stands there, or it follows `end`.
    Line,
    /// Its obligation isn't one of the file, or its variable isn't the one that stands there.
    Name,
    /// Its value hasn't the variable's shape.
    Width,
    /// It is missing, or has no line feed.
    Missing,
}

impl ScheduleFlaw {
    /// The number that a refusal gives for it.
    pub fn number(self) -> u8
        ensures { result ≡ number_of self }
    {
        match self {
            ScheduleFlaw::Line => 31,
            ScheduleFlaw::Name => 32,
            ScheduleFlaw::Width => 33,
            ScheduleFlaw::Missing => 34,
        }
    }

    /// The refusal for it at the line of this number.
    pub fn at(self, line: u32) -> Refusal
        ensures { result ≡ refusal_at self line }
    {
        Refusal {
            number: self.number(),
            line,
            column: 1,
        }
    }
}
