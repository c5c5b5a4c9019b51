//! An obligation of a file with the inputs that it has.

use ygg_oblige_list::{SymNumbers, SymObligation};
use ygg_syntax::tree::{Declared, Layer};

/// An obligation of a file, its layer, and which inputs it has.
#[derive(Clone, Copy)]
pub struct Site<'a> {
    /// The layer.
    pub layer: &'a Layer,
    /// The layer's place from the bottom one on.
    pub place: u32,
    /// The variables of what the layer is specified over.
    pub low: &'a [Declared],
    /// The obligation.
    pub obligation: SymObligation<'a>,
    /// The place of its operation or background step in the layer's list, else 0.
    pub number: u32,
    /// The first input of the layer's states.
    pub states: u64,
    /// The obligation's own inputs.
    pub numbers: SymNumbers,
}
