//! Sets of literals, as two truth values for each variable: the set that a chain is resolved in, the solver's seen set, and the literals that are true.
//! Literals of 4 bytes and clauses of them, which contracts see as the plain ones.
#![tactic(auto)]

mod literal_set;
mod packed_clause;
mod packed_lit;
mod packed_set;

pub use literal_set::{code, contains, insert, make_room, remove, remove_all};
pub use packed_clause::{PackedClause, pack_all};
pub use packed_lit::PackedLit;
pub use packed_set::{insert_all, pivot, resolve, take_all};
