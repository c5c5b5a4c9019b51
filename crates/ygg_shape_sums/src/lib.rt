//! Equalities of words that are sums, and of products that are multiplied out: what stands on both sides goes, and picks under sums are
//! moved out.
#![tactic(auto)]

pub mod cancelling;
pub mod equating;
pub mod gathering;
pub mod multiplying;
pub mod parts;
mod plain;
pub mod products;
pub mod reading;
pub mod reducing;
pub mod remaining;
pub mod sharing;
pub mod siding;
pub mod splitting;

pub use equating::{EQUATE_LIMIT, equate};
pub use ygg_shape_words::{
    Bank, Book, Env, Given, Id, NoMemory, Node, fits, known, pick, resize, same,
};
