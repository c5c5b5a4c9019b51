ghost use Rattle.std.specs.Prelude.{◌≡◌, ◌<◌, ◌^◌};
ghost use Rattle.ygg_cnf.specs.Literals.{complement};
ghost use Rattle.ygg_cnf_set.specs.LiteralSet.{code_of};

use crate::literal_set::code;
use std::marker::Model;
use ygg_cnf::Lit;

/// A literal in 4 bytes: twice its variable, and 1 more where it is negated.
#[derive(Clone, Copy, Default)]
pub struct PackedLit {
    code: u32,
}

impl Model for PackedLit {
    ghost use Rattle.ygg_cnf.specs.declared.lit.Lit.{Lit};
    ghost use Rattle.ygg_cnf_set.specs.LiteralSet.{code_of};
    ghost use Rattle.ygg_cnf_set.specs.Codes.{lit_at};

    ghost Value = { Lit };

    ghost view = { λ p. lit_at p.code };

    ghost inverse = { λ x. record { code = code_of x } };
}

impl PackedLit {
    /// The literal, in 4 bytes.
    #[inline(always)]
    pub fn of(lit: Lit) -> PackedLit
        requires { lit.var < 2 ^ 31 }
        ensures { result ≡ lit }
    {
        PackedLit {
            code: code(lit) as u32,
        }
    }

    /// The literal that is true exactly where this one is false.
    #[inline(always)]
    pub fn complement(self) -> PackedLit
        ensures { result ≡ complement self }
    {
        let code = if self.code % 2 == 0 {
            self.code + 1
        } else {
            self.code - 1
        };
        PackedLit { code }
    }

    /// The literal itself.
    #[inline(always)]
    pub fn lit(self) -> Lit
        ensures { result ≡ self }
    {
        Lit {
            var: (self.code / 2) as u64,
            negated: self.code % 2 == 1,
        }
    }
}
