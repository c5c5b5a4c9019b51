//! What an environment gives to inputs, by their numbers: words, values of shapes, and picks by place; and how many inputs declared names take.
#![tactic(auto)]

mod numbers;
mod table;
mod values;
mod words;

pub use table::InputTable;
pub use values::further;
pub use words::{words_in, words_of};
