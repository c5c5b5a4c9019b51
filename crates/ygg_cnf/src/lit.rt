ghost use Rattle.std.specs.Prelude.{◌≡◌, ◌==◌, true};
ghost use Rattle.std.specs.List.{list_any};
ghost use Rattle.ygg_cnf.specs.Literals.{complement, AreApart};

/// A variable or its complement. Variables are numbered from 1; texts write a literal as its variable, with `-` before it
/// where it is negated.
#[derive(Clone, Copy, Default, PartialEq, Eq)]
pub struct Lit {
    pub var: u64,
    pub negated: bool,
}

impl Lit {
    /// The literal that is true exactly where this one is false.
    #[inline]
    pub fn complement(self) -> Lit
        ensures { result ≡ complement self }
    {
        Lit {
            var: self.var,
            negated: !self.negated,
        }
    }
}

/// Whether no two of the literals have one variable. Its time grows with the square of their number.
#[inline]
pub fn are_apart(lits: &[Lit]) -> bool
    ensures { result ≡ true → AreApart lits.now }
{
    for place in 0..lits.len() {
        if has_variable(&lits[..place], lits[place].var) {
            return false;
        }
    }
    true
}

/// Whether one of the literals has this variable.
#[inline]
fn has_variable(lits: &[Lit], variable: u64) -> bool
    ensures { result ≡ list_any (λ x. x.var == variable) lits.now }
{
    lits.iter().any(|lit| lit.var == variable)
}
