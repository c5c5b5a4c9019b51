//! Terms, which name one another by their places in a bank.

use std::alloc::Global;
use ygg_list::{Duplicate, NoMemory};
use ygg_value::{Op, Word};

/// The place of a node in its bank, counted from 0.
#[derive(Clone, Copy, PartialEq, Eq, Hash, Drop)]
pub struct Id(pub usize);

/// A term over the nodes that stand before it in the bank. Widths are in binary digits, from 1 to 64.
#[derive(Clone, Copy, PartialEq, Eq, Hash, Drop)]
pub enum Node {
    /// What the environment gives for this number.
    Input { number: u64, width: u8 },
    /// This word.
    Const(Word),
    /// An operation on two words.
    Bin { op: Op, a: Id, b: Id },
    /// The complement of a word.
    Not { a: Id },
    /// A word at this width.
    Resize { a: Id, width: u8 },
    /// `yes` where `test` is 1, and else `no`.
    Pick { test: Id, yes: Id, no: Id },
}

impl Duplicate for Id {
    fn duplicate(&self, _alloc: Global) -> Result<Id, NoMemory> {
        Ok(*self)
    }
}
