//! The type errors of layer files: definitions, and the types that they speak of; and values by name.
#![tactic(auto)]

mod names;
mod scope;
mod type_error;

pub use names::Names;
pub use scope::{Local, Owner, Signature, TypedExpr, Variable, Visibility};
pub use type_error::TypeError;
pub use ygg_syntax::choices;
