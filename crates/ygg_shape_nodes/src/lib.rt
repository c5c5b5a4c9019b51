//! Nodes made by rules that look at the nodes of their operands: an operand with itself, implications and other operations with a known word, complements
//! of complements, and widths and operations with a constant moved into picks.
#![tactic(auto)]

pub mod making;
pub mod moving;
pub mod rules;
pub mod surely;

pub use making::{RULE_DEPTH, make_small};
