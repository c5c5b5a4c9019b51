//! What a block waits for.

use crate::SymValue;

/// What a block waits for: a choice, or the answer of an operation that it calls by name, with arguments.
#[derive(Clone, Copy)]
pub enum Awaited<'a> {
    /// A choice.
    Choice,
    /// The answer of an operation of this name, called with these arguments.
    Call(&'a [u8], &'a [SymValue]),
}
