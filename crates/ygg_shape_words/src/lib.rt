//! Terms over words that are made small: picks between two words, the equality of two words, words at other widths, and
//! words where a test is known.
#![tactic(auto)]

pub mod comparing;
pub mod deciding;
pub mod digits;
pub mod forms;
pub mod giving;
pub mod picking;
pub mod resizing;

pub use comparing::{SPLIT_LIMIT, same};
pub use digits::{DIGIT_DEPTH, may_be, may_have};
pub use forms::fits;
pub use giving::{GIVEN_LIMIT, given};
pub use picking::{known, pick};
pub use resizing::resize;
pub use ygg_bank::{Bank, Env, Given, Id, NoMemory, Node};
pub use ygg_rules::Book;
