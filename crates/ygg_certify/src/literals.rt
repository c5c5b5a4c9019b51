//! Which literals may stand in a certificate.

ghost use Rattle.std.specs.Prelude.{◌<◌, All};
ghost use Rattle.ygg_cert.specs.ygg_cnf.Steps.{IsLiteral, IsNumber};

use ygg_cert::{Clause, Lit};

/// The number of a variable may stand in a certificate, since it isn't 0. It does nothing: its contract is the fact.
fn number_may(number: u64)
    requires { 0 < number }
    ensures { IsNumber number }
{}

/// The literals of a clause may stand in a certificate, since their variables are numbered from 1 on. It changes nothing.
fn clause_may(clause: &[Lit])
    requires { All (λ x. 0 < x.var) clause.now }
    ensures { All IsLiteral clause.now }
{
    for lit in clause {
        number_may(lit.var);
    }
}

/// The literals of clauses may stand in a certificate, since their variables are numbered from 1 on. It changes nothing.
pub fn literals_may(clauses: &[Clause])
    requires { All (All (λ x. 0 < x.var)) clauses.now }
    ensures { All (All IsLiteral) clauses.now }
{
    for clause in clauses {
        clause_may(clause.as_slice());
    }
}
