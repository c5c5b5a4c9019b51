//! Layer files that every test and every measure can make: eight examples, and one file for each number of operations. Those that are made are layer
//! files without a type error, whose obligations hold: laws.
#![tactic(auto)]

mod examples;
mod generator;
pub mod law;
pub mod read_law;
pub mod refines_law;
mod texts;
pub mod typed_law;

pub use examples::example;
pub use generator::make;
pub use ygg_meaning_laws::progress_law::typed_histories;
pub use ygg_meaning_laws::refines_by_list;
