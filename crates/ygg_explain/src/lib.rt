//! What the runs of a schedule come to, and which part of which formula is false at their end: the text of `explain`.
#![tactic(auto)]

mod allowed;
mod environments;
mod explaining;
mod forms;
mod formulas;
mod lines;
mod parts;
mod reached;
mod sides;

pub use explaining::explain_text;
