//! The top call: words in, status and printed lines out; and its commands. `verify` and `demo` decide the obligations of a layer file, `certify` and `check`
//! make and check certificates of them, `decide` decides one, and `replay` runs a schedule of one. `print` prints a file, `solve` and `cnf` take and
//! give sets of clauses, `play` runs the layers of a file over a disk in memory, and over the image of their disk `format`, which makes it, and
//! `run`, once a certificate shows that they are right.
#![tactic(auto)]

mod asking;
mod certified_finding;
mod certifying;
mod checking;
mod command;
mod counting;
mod deciding;
mod explaining;
mod finding;
mod formatting;
mod help;
mod image;
mod law;
mod making;
mod naming;
mod playing;
mod print_command;
mod printing;
mod replaying;
mod running;
mod script;
mod solving;
mod verdict;
mod verdict_command;
mod words;

pub use asking::cnf;
pub use certifying::{certify, certify_within};
pub use checking::{check, checked_stored};
pub use command::ygg;
pub use deciding::{decide, decide_within};
pub use explaining::explain;
pub use formatting::format;
pub use law::play_ends_one_way;
pub use naming::is_obligation;
pub use playing::play;
pub use print_command::print;
pub use printing::put_obligation;
pub use replaying::replay;
pub use running::run;
pub use solving::{solve, solve_within};
pub use verdict::refuted_by;
pub use verdict_command::{demo, verify, verify_within};
pub use ygg_oblige_reading::Book;
