//! Clauses over numbered variables, the resolution steps that derive one from others, and logs of derived clauses; and how literals, clauses and
//! steps of logs are written and read. Each call that writes adds to the end of a text, so that a long log need not stand in one text; a step is
//! read byte by byte, its literals and the numbers of its chain in a loop each.
//!
//! ```text
//! c 1 -2 0 3 4 0
//! ```
//!
//! is the step that derives the clause of 1 and -2 from the clauses 3 and 4.
//!
//! Long texts are put piece by piece, so that they need not stand in memory.
#![tactic(auto)]

mod assignment;
mod clause;
mod clause_sink;
mod law;
mod lines;
mod lit;
mod literals;
mod log;
mod numbers;
mod pattern;
mod pieces;
mod reader;
mod spot;

pub use assignment::{Assignment, truth};
pub use clause::{Clause, Clauses, is_once};
pub use clause_sink::{ClauseSink, put_made};
pub use law::{clauses_are_sets, derivations_are_sound};
pub use lines::{put_clause, put_literals, put_number, put_step};
pub use lit::Lit;
pub use log::{Log, Step};
pub use pattern::{Pattern, PatternLit};
pub use pieces::{finish, pass, pass_log};
pub use reader::{StepHeard, StepReader};
