//! What a layer is specified over, as a machine over terms, the laws of runs on it, and the picks that a run with picks by place takes, from the
//! front: in the order in which it takes them.
#![tactic(auto)]

pub mod disk_law;
pub mod law;
pub mod spec_law;
pub mod sym_law;

pub use ygg_sym_runs::{
    Awaited, Bank, Book, Env, Given, Id, NoMemory, Node, Replacements, SymBinding, SymEvaluator,
    SymLower, SymRunner, SymValue, SymValues, equal, equal_all, facts, id_in, inputs_of,
    refines_by_list, replace, room, shape_of, typed_histories, whole, zero,
};
