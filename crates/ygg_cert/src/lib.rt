//! Certificates: texts that show of each of a list of goals, which are sets of clauses, that no assignment satisfies it.
//!
//! ```text
//! ygg-cert 1
//! o pair.init 4
//! c 2 0 1 2 0
//! c 0 5 3 4 0
//! e
//! end
//! ```
//!
//! is a certificate for one goal with four clauses. Clause 5 is derived from the clauses 1 and 2, and the empty clause from 5, 3 and 4.
//!
//! A certificate is read piece by piece, also from the file that a library has open, so that none need stand in memory.
#![tactic(auto)]

mod expected;
mod item;
mod law;
mod log;
mod opened;
mod phase;
mod printing;
mod reader;
mod reading;
mod source;
mod verdict;

pub use item::{CertItems, Goal, HeldGoal, Item, Wanted};
pub use law::{checked_is_refuted, judged_once, printed_is_checked, steps_may};
pub use opened::{LibraryFailed, check_open};
pub use printing::{print_cert, put_closing, put_first, put_last, put_opening};
pub use reader::{CertReader, check_cert, check_goals};
pub use reading::Reading;
pub use source::Goals;
pub use verdict::{CertEnd, Fed};
pub use ygg_chain::Checker;
pub use ygg_cnf::{Clause, Lit, Log, Step, derivations_are_sound, put_number};
