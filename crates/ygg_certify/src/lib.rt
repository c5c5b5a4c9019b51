//! Certificates of layer files: checked, and made; and the laws that each obligation holds or is violated, as its term says.
#![tactic(auto)]

mod certifying;
mod checking;
mod finding;
mod goals;
pub mod law;
mod literals;
mod putting;
mod saying;

pub use certifying::{Certifying, certify};
pub use checking::check_file;
pub use finding::{Finding, Findings, Outcome, all_hold, find};
pub use putting::put_findings;
pub use saying::{Unchecked, check};
pub use ygg_cert::{derivations_are_sound, judged_once};
pub use ygg_decide::{Bank, Decided, Env, Id, clauses_mean_terms, decide};
pub use ygg_report::{Verdict, line, put_all, undecided};
