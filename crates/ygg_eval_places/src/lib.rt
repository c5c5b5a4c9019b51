//! Runs of blocks on values in which each choice and each call has a place of its own in the unrolled text; and of a layer's blocks with a bit for each
//! place: the picks that they take, from the front, and where power fails.
#![tactic(auto)]

mod below;
mod bits;
mod choices;
mod disk;
mod fronts;
mod losing;
mod places;
mod run;
mod source;
mod spec;
mod stops;
mod unrolled;
mod walker;
mod whole;

pub use below::{BelowState, Fallen, PlacedBits};
pub use bits::{Choices, bit_at};
pub use fronts::{Front, run_fronts};
pub use losing::{Lost, lose_fronts};
pub use places::{Places, Question};
pub use run::{choices_room, run_choices};
pub use unrolled::{add, room};
pub use walker::Walker;
pub use whole::run_places;
pub use ygg_sym_laws::{Bank, Env};
