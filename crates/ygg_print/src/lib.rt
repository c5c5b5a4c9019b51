//! The one canonical text of a layer file, and what holds of the grammar and of this text by their definitions alone. The marks of a file are
//! written by the rules of the grammar: each call writes those of a part behind what the printer has. Its only error is out of memory, after which
//! some of the part's marks may be written.
#![tactic(auto)]

mod blocks;
mod canonical;
mod expressions;
mod files;
mod law;
mod layers;
mod layout;
mod operations;
mod printer;
mod rules;
mod tree_law;
mod unique_law;

pub use canonical::print;
pub use law::canonical_is_read;
pub use layers::marks_of;
pub use layout::lay_out;
pub use tree_law::{laid_out, tokens_are_marks};
pub use unique_law::{derived_marks, one_file_derives, printed_derives, same_printed};
