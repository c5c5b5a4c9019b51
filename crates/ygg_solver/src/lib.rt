//! A solver by conflict-driven clause learning, whose every learned clause comes with the chain of resolution steps that derives it.
//!
//! An example, which asks whether some assignment satisfies `1 -2` and `2`, with at most a thousand learned clauses:
//!
//! ```
//! let mut clauses = Clauses::new(alloc);
//! let one = Lit { var: 1, negated: false };
//! let two = Lit { var: 2, negated: false };
//! clauses.push(Clause::once(alloc, &[one, two.complement()])?)?;
//! clauses.push(Clause::once(alloc, &[two])?)?;
//! match solve(alloc, &clauses, 1000)? {
//!     Answer::Sat(assignment) => { /* truth(&assignment, 1) and truth(&assignment, 2) are true */ }
//!     Answer::Unsat(log) => { /* each clause of the log follows from those before it, and the last one is empty */ }
//!     Answer::Spent(log) => { /* a thousand clauses were learned, and nothing is decided */ }
//! }
//! ```
#![tactic(auto)]

mod advice;
mod analysis;
mod answer;
mod names;
mod removal;
mod run;
mod searching;
mod seen_places;
mod solving;

pub use advice::order_for;
pub use analysis::{Learned, analyze, refute};
pub use answer::Answer;
pub use removal::Removal;
pub use searching::{SearchEnd, search_clauses};
pub use seen_places::{entry_at, last_decision};
pub use solving::{solve, solve_and_count, solve_owned};
pub use ygg_cnf::{Assignment, Clause, Clauses, Lit, Step, truth};
pub use ygg_watch::Work;
