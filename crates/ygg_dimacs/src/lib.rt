//! Clauses as texts: the form of the DIMACS challenge on satisfiability, printed and read again.
//!
//! ```text
//! c two clauses over two variables
//! p cnf 2 2
//! 1 0
//! -1 2 0
//! ```
//!
//! Clauses are solved within a budget, and what comes of it is put piece by piece. The clauses of a term are put so too: they are counted first,
//! for the header, and then made a second time, those of one gate after another, so that they don't stand in memory together.
#![tactic(auto)]

mod cnf;
mod counting;
mod cutting;
mod flaw;
mod header;
mod law;
mod lines;
mod marks;
mod numbers;
mod pieces;
mod places;
mod printing;
mod putting;
mod reading;
mod solving;
mod words;

pub use cnf::Cnf;
pub use flaw::ClausesFlaw;
pub use law::printed_is_read;
pub use printing::{print_cnf, put_header};
pub use putting::put_term;
pub use reading::read_cnf;
pub use solving::solve_cnf;
pub use ygg_blast::{Bank, Book};
