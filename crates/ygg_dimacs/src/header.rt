//! The header of a text.

ghost use Rattle.std.specs.Prelude.{◌≡◌, ◌≤◌, length, IfSome};
ghost use Rattle.ygg_dimacs.specs.Headers.{header_by, header_of, header_in, most_variables};
ghost use Rattle.ygg_dimacs.specs.Left.{left_words, word_of};

use crate::numbers::number_in;
use crate::places::{Line, Onward, TextWord};
use crate::words::next_word;

/// The greatest number of variables that a text may state.
const MOST_VARIABLES: u64 = 4_000_000;

/// The greatest number of clauses that a text may state.
const MOST_CLAUSES: u64 = 4_294_967_295;

/// What a header says.
#[derive(Clone, Copy)]
pub struct Header {
    /// The number of variables.
    pub variables: u64,
    /// The number of clauses.
    pub clauses: u64,
}

/// The header that the words `p`, `cnf` and two numbers are.
fn header_by(p: &[u8], cnf: &[u8], variables: &[u8], clauses: &[u8]) -> Option<Header>
    ensures is { result ≡ header_by p.now cnf.now variables.now clauses.now }
    ensures few { IfSome result (λ h. h.variables ≤ most_variables) }
{
    if p != b"p".as_slice() || cnf != b"cnf".as_slice() {
        return None;
    }
    let variables = number_in(variables, MOST_VARIABLES)?;
    let clauses = number_in(clauses, MOST_CLAUSES)?;
    Some(Header { variables, clauses })
}

/// The header that what is left of a line is.
fn header_left(at: Onward<'_>) -> Option<Header>
    ensures is { result ≡ header_of (left_words at.entry) }
    ensures few { IfSome result (λ h. h.variables ≤ most_variables) }
{
    let (p, at) = next_word(at)?;
    let (cnf, at) = next_word(at)?;
    let (variables, at) = next_word(at)?;
    let (clauses, at) = next_word(at)?;
    if next_word(at).is_some() {
        return None;
    }
    header_by(p.bytes, cnf.bytes, variables.bytes, clauses.bytes)
}

/// The header that a line is.
pub fn header_in(line: &[u8]) -> Option<Header>
    requires { length line.now ≤ 67108865 }
    ensures is { result ≡ header_in line.now }
    ensures few { IfSome result (λ h. h.variables ≤ most_variables) }
{
    header_left(Onward {
        bytes: line,
        line: 1,
        column: 1,
    })
}
