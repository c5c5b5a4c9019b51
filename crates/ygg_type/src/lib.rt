//! Which layer files are typed, and the first type error of those that are not: what is in scope, expressions, statements and blocks, declarations and files.
#![tactic(auto)]

mod checker;
mod compare;
mod declarations;
mod definitions;
mod expressions;
mod files;
mod first;
mod layers;
mod limits;
mod operations;
mod rules;
mod shapes;
mod statements;
mod typed;

pub use shapes::named;
pub use typed::{Typed, check};
pub use ygg_type_rules::choices;
