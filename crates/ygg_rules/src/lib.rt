//! Rules that make terms smaller: what a rule sees of a term, what it answers, and seven of them.
#![tactic(auto)]

pub mod book;
pub mod judges;
pub mod law;
pub mod rule;
pub mod view;

pub use book::{Book, RuleBook};
pub use judges::{add_zero, and_ones, and_zero, eq_self, fold, or_zero, pick_same};
pub use rule::{Judge, Rule, RuleKind};
pub use view::{Act, Operand, Rewrite, View, width_of};
