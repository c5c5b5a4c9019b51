//! From clauses to their text.

ghost use Rattle.std.specs.Prelude.{◌≡◌, ◌++◌, IfOk, OnOk};
ghost use Rattle.ygg_dimacs.specs.Printing.{header_line, cnf_text, AreWithin};

use crate::cnf::Cnf;
use std::alloc::Global;
use ygg_base::{NoMemory, Text};
use ygg_cnf::{put_clause, put_number};

/// Adds the header: `p cnf V C`. Its only error is out of memory.
pub fn put_header(out: &mut Text, variables: u64, clauses: u64) -> Result<(), NoMemory>
    ensures { OnOk result (out.new ≡ out.old ++ header_line variables clauses) }
{
    out.extend_from_slice(b"p cnf ")?;
    put_number(out, variables)?;
    out.push(b' ')?;
    put_number(out, clauses)?;
    out.push(b'\n')
}

/// The text of clauses: the header, and a line for each clause, its literals and `0`. Its only error is out of memory.
pub fn print_cnf(alloc: Global, cnf: &Cnf) -> Result<Text, NoMemory>
    requires { AreWithin cnf.now.variables cnf.now.clauses }
    ensures { IfOk result (λ text. text ≡ cnf_text cnf.now) }
{
    let mut out = Text::new(alloc);
    put_header(&mut out, cnf.variables, cnf.clauses.len() as u64)?;
    for clause in cnf.clauses.as_slice() {
        put_clause(&mut out, clause)?;
    }
    Ok(out)
}
