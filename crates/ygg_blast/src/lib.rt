//! From terms to clauses: the clauses of a term, and the environment that satisfying truth values name.
#![tactic(auto)]

mod blasted;
mod clauses;
mod groups;
mod table;

pub use blasted::{Blasted, circuit_of, clauses_of, environment, environment_of, put_clauses};
pub use clauses::clauses_of_gate;
pub use groups::Groups;
pub use ygg_bank::{Bank, Env, Id};
pub use ygg_cnf::{Clause, Lit, Log, derivations_are_sound};
pub use ygg_gates::{Gate, InputVariables, clauses_mean_terms};
pub use ygg_gates_operation::true_literal;
pub use ygg_list::NoMemory;
pub use ygg_rules::{Book, RuleBook};
