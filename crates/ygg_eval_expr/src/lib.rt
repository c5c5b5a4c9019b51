//! The evaluator of expressions.
#![tactic(auto)]

mod evaluator;
mod held;
mod made;
mod shapes;
mod write;

pub use evaluator::Evaluator;
pub use held::{Binding, CowValue, lend_values};
pub use made::{digit, is_one, word_in};
pub use shapes::shape_of;
pub use write::write_part;
pub use ygg_meaning_laws::{
    AsyncDisk, Ground, Picks, Power, SyncDisk, Turn, fresh_async, fresh_sync, read_row,
};
