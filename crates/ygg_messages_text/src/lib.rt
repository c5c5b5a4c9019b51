//! What can be found in a text where it is refused: places, tokens, what is declared in a layer file and the shapes of its expressions, what may stand at a
//! place, and the names of its obligations. Nothing here is judged: a person is told of it.
#![tactic(auto)]

mod brackets;
mod declared;
mod expected;
mod names;
mod place;
mod shapes;
mod tokens;
mod types;
mod written;

pub use expected::{goes_on_with, wants_semicolon};
pub use names::{nearest_declared, nearest_name};
pub use place::{code_of, is_of_word, last_code, line_before, line_of, parted, word_of};
pub use types::types_at;
