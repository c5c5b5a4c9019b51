//! From terms to clauses, as definitions: gates over literals, the gates of each operation on words, and the clauses of a term. And as code the gates of which
//! operations are made: of bits in pairs, of comparisons, of sums and products, of shifts.
#![tactic(auto)]

mod bits;
pub mod comparisons;
mod gate;
mod law;
mod pairs;
mod shifts;
mod sums;

pub use bits::{
    BitLiterals, complements, constant_bits, copies, false_literal, lowest, resized, true_literal,
};
pub use gate::{Carried, Gate, InputVariables, Joint, Way};
pub use law::{clauses_mean_terms, groups_are_of_reached_nodes};
pub use pairs::{free_bits, join_each};
pub use shifts::shift;
pub use sums::{Added, add, multiply, subtract};
