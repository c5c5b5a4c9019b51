//! The terms of a file's obligations, as definitions: fresh inputs, tests of states, steps of the specification. Laws: what these terms mean, and that the
//! schedules which an environment names violate just those obligations whose terms are 0 in it.
#![tactic(auto)]

pub mod law;
pub mod pieces_law;
pub mod schedules_law;
pub mod typed_law;

pub use ygg_sym_laws::{
    Bank, Book, Env, Given, Id, NoMemory, Replacements, facts, refines_by_list, replace, shape_of,
    typed_histories,
};
