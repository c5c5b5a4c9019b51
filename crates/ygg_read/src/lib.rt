//! Reads layer files from tokens, with one function or method for each rule of the grammar.
//!
//! Each says three things of the tokens before it and after it, whatever comes behind: the tree that it answers reads just these tokens, the symbols that the
//! grammar has pending take just these, and where it answers nothing the pending symbols stop where the reader stands. So a refusal has its place by the reader
//! alone, and one rule follows from those of its parts by putting equations one behind another. A file is read exactly where one derives, and else the place
//! of the refusal is that of the first token which the pending symbols can't take, or the end of the text. That the pending symbols take what derives is a
//! law over the definitions.
#![tactic(auto)]

mod blocks;
pub mod both;
pub mod claims;
pub mod disk;
mod expression;
mod expression_law;
mod file;
mod law;
mod layer;
mod operations;
mod parts;
mod reader;
mod source;
mod types;
mod variables;

pub use expression_law::complete;
pub use file::read;
pub use layer::layers;
pub use reader::Reader;
pub use variables::definitions;
