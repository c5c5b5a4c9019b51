//! The tokens of a text of the layer language.
#![tactic(auto)]

mod law;
mod recognize;
mod scanner;
mod spelling;

pub use law::follows_rules;
pub use recognize::{is_name_byte, number_of};
pub use scanner::tokens;
pub use spelling::{Spelled, keyword_of};
