ghost use Rattle.std.specs.Prelude.{◌≡◌, ◌++◌, OnOk};
ghost use Rattle.std.specs.Fmt.{decimal};
ghost use Rattle.ygg_cnf.specs.Lines.{literal_word, literal_words, number_words, clause_line, step_line};

use crate::clause::Clause;
use crate::lit::Lit;
use crate::log::Step;
use ygg_base::{NoMemory, Text};

/// Adds a number in decimal digits. Its only error is out of memory.
#[tactic(auto, using(crate::proofs::Digits::one_digit, crate::proofs::Digits::last_digit))]
pub fn put_number(out: &mut Text, number: u64) -> Result<(), NoMemory>
    ensures { OnOk result (out.new ≡ out.old ++ decimal number) }
{
    if number < 10 {
        return out.push(b'0' + number as u8);
    }
    put_number(out, number / 10)?;
    out.push(b'0' + (number % 10) as u8)
}

/// Adds a literal: its variable, with `-` before it where it is negated. Its only error is out of memory.
fn put_literal(out: &mut Text, literal: Lit) -> Result<(), NoMemory>
    ensures { OnOk result (out.new ≡ out.old ++ literal_word literal) }
{
    if literal.negated {
        out.push(b'-')?;
    }
    put_number(out, literal.var)
}

/// Adds literals, each with a space after it. Its only error is out of memory.
pub fn put_literals(out: &mut Text, literals: &[Lit]) -> Result<(), NoMemory>
    ensures { OnOk result (out.new ≡ out.old ++ literal_words literals.now) }
{
    for literal in literals {
        put_literal(out, *literal)?;
        out.push(b' ')?;
    }
    Ok(())
}

/// Adds numbers, each with a space after it. Its only error is out of memory.
fn put_numbers(out: &mut Text, numbers: &[u64]) -> Result<(), NoMemory>
    ensures { OnOk result (out.new ≡ out.old ++ number_words numbers.now) }
{
    for number in numbers {
        put_number(out, *number)?;
        out.push(b' ')?;
    }
    Ok(())
}

/// Adds the line of a clause: its literals, and `0`. Its only error is out of memory.
pub fn put_clause(out: &mut Text, clause: &Clause) -> Result<(), NoMemory>
    ensures { OnOk result (out.new ≡ out.old ++ clause_line clause.now) }
{
    put_literals(out, clause.as_slice())?;
    out.extend_from_slice(b"0\n")
}

/// Adds the line of a step of a log: `c`, its clause's literals and `0`, the numbers of the clauses that it is derived from and `0`. Its only error is out of
/// memory.
pub fn put_step(out: &mut Text, step: &Step) -> Result<(), NoMemory>
    ensures { OnOk result (out.new ≡ out.old ++ step_line step.now) }
{
    let Step::Added { clause, chain } = step;
    out.extend_from_slice(b"c ")?;
    put_literals(out, clause.as_slice())?;
    out.extend_from_slice(b"0 ")?;
    put_numbers(out, chain.as_slice())?;
    out.extend_from_slice(b"0\n")
}
