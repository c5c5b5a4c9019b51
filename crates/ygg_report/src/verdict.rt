ghost use Rattle.std.specs.Prelude.{◌≡◌};
ghost use Rattle.ygg_report.specs.Tallies.{tally_of};

/// A verdict on an obligation.
#[derive(Clone, Copy)]
pub enum Verdict {
    /// No schedule violates it.
    Holds,
    /// A schedule violates it.
    Fails,
    /// So many clauses were learned, which is the whole budget, and nothing was found.
    Spent(u32),
}

/// How many obligations a file has, and of how many of them each verdict was found.
#[derive(Clone, Copy)]
pub struct Tally {
    /// The obligations of the file.
    pub obligations: usize,
    /// Those that hold.
    pub holds: usize,
    /// Those that fail.
    pub fails: usize,
    /// Those whose budget was spent.
    pub spent: usize,
}

impl Tally {
    /// How many verdicts there are, and how many of each kind.
    pub fn of(verdicts: &[Verdict]) -> Tally
        ensures { result ≡ tally_of verdicts.now }
    {
        let mut holds = 0;
        let mut fails = 0;
        let mut spent = 0;
        for verdict in verdicts {
            match verdict {
                Verdict::Holds => holds += 1,
                Verdict::Fails => fails += 1,
                Verdict::Spent(_) => spent += 1,
            }
        }
        Tally {
            obligations: verdicts.len(),
            holds,
            fails,
            spent,
        }
    }
}
